// What `ccread` prints for the records of a capture: the line of a frame and the lines of every item drawn after it, or the line of a distribution
// packet and the lines of its frame. Lines are laid into a lent buffer from a place on and as far as there is room.
#![tactic(auto)]

ghost use Rattle.std.specs.Prelude.{◌≡◌, ◌≤◌, length, true};
ghost use Rattle.packet.specs.Packet.{packet_of, valid_dtvcc};
ghost use Rattle.program_text.specs.Laid.{Laid};
ghost use Rattle.program_lines.specs.Lines.{answer_text};
ghost use Rattle.parser.specs.Valid.{valid};
ghost use Rattle.parser.specs.Means.{means};
ghost use Rattle.ccread_report.specs.Report.{block_lines, item_lines, waiting_lines, drawn_out, frame_lines, settled, cdp_line, cdp_lines, cdp_taken, record_lines, recorded, said_cdp, besides};

use caption::Refusal;
use distribution::{DistributionReader, Received};
use packet::DTVCCPacket;
use parser::{CCDataParser, Item};

// No frame leaves more to draw than 31 pairs and 32 packets.
const MOST_ITEMS: usize = 63;

// The kind of a record that is a distribution packet.
const PACKET: u8 = 0xCD;

// The place behind the lines, and the demultiplexer afterwards.
#[derive(Clone, Copy)]
pub struct Told {
    pub laid: usize,
    pub parser: CCDataParser,
}

// What the program has: the demultiplexer, and the reader of distribution packets.
#[derive(Clone, Copy)]
pub struct Capture {
    pub parser: CCDataParser,
    pub reader: DistributionReader,
}

// The place behind the lines of a record, and what the program has then.
#[derive(Clone, Copy)]
pub struct Recorded {
    pub laid: usize,
    pub capture: Capture,
}

// A line for each block of a packet.
fn put_blocks(out: &mut [u8], at: usize, packet: DTVCCPacket) -> usize
    requires packet_value { valid_dtvcc packet ≡ true }
    requires at_in_bounds { at ≤ length out.old }
    ensures { Laid (block_lines (packet_of packet).blocks) out.old at result out.new }
{
    let payload = packet.payload;
    let mut laid = at;
    let mut used: usize = 0;
    let mut i: usize = 0;
    while i < packet.count {
        let number = packet.numbers[i];
        let size = packet.sizes[i] as usize;
        let part = program_records::part(&payload, used, size);
        laid = program_lines::put_block_line(out, laid, number, part);
        used += size;
        i += 1;
    }
    laid
}

// The lines of an item: a pair's, or those of the packet beside it.
fn put_item(out: &mut [u8], at: usize, item: Item, packet: DTVCCPacket) -> usize
    requires packet_value { valid_dtvcc packet ≡ true }
    requires at_in_bounds { at ≤ length out.old }
    ensures { Laid (item_lines item (packet_of packet)) out.old at result out.new }
{
    match item {
        Item::Pair(pair) => {
            let end = program_lines::put_pair(out, at, pair);
            program_text::put_newline(out, end)
        }
        Item::Packet => {
            let end = program_lines::put_packet(out, at, packet.seq_no);
            let next = program_text::put_newline(out, end);
            put_blocks(out, next, packet)
        }
        Item::Nothing => at,
    }
}

// The lines of everything that waits in a demultiplexer.
fn put_items(out: &mut [u8], at: usize, before: CCDataParser) -> Told
    requires at_in_bounds { at ≤ length out.old }
    requires before_value { valid before ≡ true }
    ensures laid { Laid (waiting_lines (means before)) out.old at result.laid out.new }
    ensures parser_value { result.parser ≡ drawn_out 63 before }
{
    let mut parser = before;
    let mut laid = at;
    let mut n: usize = MOST_ITEMS;
    while 0 < n {
        n -= 1;
        let Ok(drawn) = parser.draw() else {
            return Told { laid, parser };
        };
        let item = drawn.item;
        let packet = drawn.packet;
        laid = put_item(out, laid, item, packet);
        if let Item::Nothing = item {
            return Told { laid, parser };
        }
    }
    Told { laid, parser }
}

// The lines of a frame, whose record has a number: what it is answered and, if it is accepted, every item that then waits.
pub fn put_frame(out: &mut [u8], at: usize, number: u64, frame: &[u8], before: CCDataParser) -> Told
    ensures laid { Laid (frame_lines number frame.now before) out.old at result.laid out.new }
    ensures parser_value { result.parser ≡ settled before frame.now }
{
    let mut parser = before;
    let answer = parser.push(frame);
    let laid = program_lines::put_frame_line(out, at, number, answer);
    match answer {
        Ok(()) => put_items(out, laid, parser),
        Err(_) => Told { laid, parser },
    }
}

// What a distribution packet was answered: the code of its rate and its counter, or why it is refused.
fn put_received(out: &mut [u8], at: usize, received: Result<Received, Refusal>) -> usize
    ensures { Laid (answer_text (said_cdp received)) out.old at result out.new }
{
    match received {
        Ok(packet) => {
            let p = program_text::put_word(out, at, b"ok");
            let q = program_lines::put_value(out, p, packet.code as u64);
            program_lines::put_value(out, q, packet.counter as u64)
        }
        Err(why) => program_lines::put_refusal(out, at, why),
    }
}

// The line of a distribution packet, whose record has a number.
fn put_cdp_line(
    out: &mut [u8],
    at: usize,
    number: u64,
    received: Result<Received, Refusal>,
) -> usize
    ensures { Laid (cdp_line number (said_cdp received)) out.old at result out.new }
{
    let p = program_text::put_word(out, at, b"cdp ");
    let q = program_text::put_decimal(out, p, number);
    let s = program_text::put_byte(out, q, b' ');
    let t = put_received(out, s, received);
    program_text::put_newline(out, t)
}

// What the program has behind lines, with the reader beside the demultiplexer.
fn beside(told: Told, reader: DistributionReader) -> Recorded
    ensures { result ≡ besides told reader }
{
    let parser = told.parser;
    Recorded {
        laid: told.laid,
        capture: Capture { parser, reader },
    }
}

// The lines of a distribution packet: what it is answered and, if it is accepted, those of its frame.
fn put_cdp(out: &mut [u8], at: usize, number: u64, packet: &[u8], before: Capture) -> Recorded
    ensures laid { Laid (cdp_lines number packet.now before) out.old at result.laid out.new }
    ensures capture_value { result.capture ≡ cdp_taken packet.now before }
{
    let parser = before.parser;
    let mut reader = before.reader;
    let mut lent = [0u8; 95];
    let received = reader.read(packet, &mut lent);
    let laid = put_cdp_line(out, at, number, received);
    match received {
        Ok(read) => {
            let told = put_frame(
                out,
                laid,
                number,
                program_records::part(&lent, 0, read.len),
                parser,
            );
            beside(told, reader)
        }
        Err(_) => beside(Told { laid, parser }, reader),
    }
}

// The lines of a record of a kind, which has a number: 0xCD is a distribution packet, any other kind a frame.
pub fn put_record(
    out: &mut [u8],
    at: usize,
    number: u64,
    kind: u8,
    bytes: &[u8],
    before: Capture,
) -> Recorded
    ensures laid { Laid (record_lines number kind bytes.now before) out.old at result.laid out.new }
    ensures capture_value { result.capture ≡ recorded kind bytes.now before }
{
    if kind == PACKET {
        return put_cdp(out, at, number, bytes, before);
    }
    let parser = before.parser;
    let reader = before.reader;
    beside(put_frame(out, at, number, bytes, parser), reader)
}
