// The operations of a script, by their letters, on its demultiplexer: each makes one call, and lays the line that tells of it into a lent buffer from
// a place on.
#![tactic(auto)]

ghost use Rattle.std.specs.Prelude.{◌++◌};
ghost use Rattle.model.specs.Said.{accepted};
ghost use Rattle.caption.specs.Pairs.{cea608_of};
ghost use Rattle.parser.specs.Items.{drawn_values};
ghost use Rattle.program_text.specs.Laid.{Laid};
ghost use Rattle.program_text.specs.Text.{word};
ghost use Rattle.program_lines.specs.Lines.{pair_text};
ghost use Rattle.script_answers.specs.Steps.{Did};
ghost use Rattle.script_answers.specs.Rows.{sought, Tried};
ghost use Rattle.script_packets.specs.Lines.{held_text};
ghost use Rattle.script_parsers.specs.Lines.{item_line};
ghost use Rattle.script_parsers.specs.Parsers.{renews_parser, turns_on, flushes_parser, sets_parser};
ghost use Rattle.script_parsers.specs.Parsers.{pushes_frame, draws, parser_rows};

use caption::Cea608;
use packet::DTVCCPacket;
use parser::{CCDataParser, Drawn, Item};
use program_text::{put_newline, put_word};

// A pair that was drawn.
fn put_pair_line(out: &mut [u8], at: usize, pair: Cea608) -> usize
    ensures { Laid (word "ok " ++ pair_text (cea608_of pair) ++ word "\n") out.old at result out.new }
{
    let p = put_word(out, at, b"ok ");
    let q = program_lines::put_pair(out, p, pair);
    put_newline(out, q)
}

// A packet that was drawn.
fn put_drawn_packet(out: &mut [u8], at: usize, packet: &DTVCCPacket) -> usize
    ensures { Laid (word "ok packet" ++ held_text packet.now ++ word "\n") out.old at result out.new }
{
    let p = put_word(out, at, b"ok packet");
    let q = script_packets::put_packet(out, p, packet);
    put_newline(out, q)
}

// An item that was drawn, and the packet beside it.
fn put_item_line(out: &mut [u8], at: usize, drawn: &Drawn) -> usize
    ensures { Laid (item_line (accepted (drawn_values drawn.now)) drawn.now.packet)
        out.old at result out.new }
{
    match drawn.item {
        Item::Pair(pair) => put_pair_line(out, at, pair),
        Item::Packet => put_drawn_packet(out, at, &drawn.packet),
        Item::Nothing => put_word(out, at, b"ok none\n"),
    }
}

// A fresh demultiplexer.
fn new_parser(out: &mut [u8], at: usize, parser: &mut CCDataParser) -> usize
    ensures { Did renews_parser out.old at result parser.new out.new }
{
    *parser = CCDataParser::new();
    script_answers::put_ok_line(out, at)
}

// 608 turned on.
fn turn_on(out: &mut [u8], at: usize, parser: &mut CCDataParser) -> usize
    ensures { Did (turns_on parser.old) out.old at result parser.new out.new }
{
    let answer = parser.handle_cea608();
    script_answers::put_done_line(out, at, answer)
}

// All of it thrown away.
fn flush(out: &mut [u8], at: usize, parser: &mut CCDataParser) -> usize
    ensures { Did (flushes_parser parser.old) out.old at result parser.new out.new }
{
    let answer = parser.flush();
    script_answers::put_done_line(out, at, answer)
}

// The three counts of the demultiplexer set, whatever they break.
fn set_parser(
    out: &mut [u8],
    at: usize,
    parser: &mut CCDataParser,
    pairs: u8,
    pending: u8,
    waiting: u8,
) -> usize
    ensures { Did (sets_parser pairs pending waiting parser.old) out.old at result parser.new out.new }
{
    parser.pair_count = pairs as usize;
    parser.pending_len = pending as usize;
    parser.waiting_count = waiting as usize;
    script_answers::put_ok_line(out, at)
}

// A frame pushed.
fn push(out: &mut [u8], at: usize, parser: &mut CCDataParser, frame: &[u8]) -> usize
    ensures { Did (pushes_frame frame.now parser.old) out.old at result parser.new out.new }
{
    let answer = parser.push(frame);
    script_answers::put_done_line(out, at, answer)
}

// One item drawn.
fn draw(out: &mut [u8], at: usize, parser: &mut CCDataParser) -> usize
    ensures { Did (draws parser.old) out.old at result parser.new out.new }
{
    match parser.draw() {
        Ok(drawn) => put_item_line(out, at, &drawn),
        Err(why) => script_answers::put_refusal_line(out, at, why),
    }
}

/// An operation on the demultiplexer, by its letter and its argument bytes: the place behind the
/// line that tells of it, or `None` for one that there is not, which does nothing.
#[tactic(auto, unfolding(crate::specs::Parsers::parser_rows, crate::specs::Parsers::streaming_rows, script_answers::specs::Rows::sought))]
pub fn on_parser(
    out: &mut [u8],
    at: usize,
    parser: &mut CCDataParser,
    op: u8,
    args: &[u8],
) -> Option<usize>
    ensures { Tried (sought (parser_rows parser.old) op args.now)
        parser.old out.old at result parser.new out.new }
{
    match (op, args) {
        (b'R', []) => Some(new_parser(out, at, parser)),
        (b'H', []) => Some(turn_on(out, at, parser)),
        (b'F', []) => Some(flush(out, at, parser)),
        (b'D', [pairs, pending, waiting]) => {
            Some(set_parser(out, at, parser, *pairs, *pending, *waiting))
        }
        (b'f', frame) => Some(push(out, at, parser, frame)),
        (b'n', []) => Some(draw(out, at, parser)),
        _ => None,
    }
}
