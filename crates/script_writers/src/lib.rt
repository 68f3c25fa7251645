// The operations of a script, by their letters, on its multiplexer: each makes its call (that of the switches one for each of the four), and lays the
// line that tells of it into a lent buffer from a place on.
#![tactic(auto)]

ghost use Rattle.std.specs.Prelude.{◌≡◌, [], ◌∷◌};
ghost use Rattle.caption.specs.Answers.{outcome};
ghost use Rattle.model.specs.Mux.{carrying_mode};
ghost use Rattle.script_answers.specs.Steps.{Did};
ghost use Rattle.script_answers.specs.Rows.{sought, Tried};
ghost use Rattle.script_writers.specs.Writers.{renews_writer, switches, pushes_packet, pushes_pair, writes_frame, measured_times};
ghost use Rattle.script_writers.specs.Writers.{flushes_writer, sets_writer, sets_carry, writer_rows};

use caption::{Cea608, Framerate, Refusal};
use packet::DTVCCPacket;
use program_records::{byte_at, number_at};
use script_answers::{put_done_line, put_measures_line, put_ok_line, put_written_line};
use writer::CCDataWriter;
use writer_shares::Carry;

// A fresh multiplexer.
fn renew(out: &mut [u8], at: usize, writer: &mut CCDataWriter) -> usize
    ensures { Did renews_writer out.old at result writer.new out.new }
{
    *writer = CCDataWriter::new();
    put_ok_line(out, at)
}

// The four switches set, by four bits: all are refused where the first is.
fn switch(out: &mut [u8], at: usize, writer: &mut CCDataWriter, bits: u8) -> usize
    ensures { Did (switches (bits ∷ []) writer.old) out.old at result writer.new out.new }
{
    let _ = writer.set_output_cea608_padding(bits % 2 == 1);
    let _ = writer.set_output_padding(bits / 2 % 2 == 1);
    let _ = writer.set_carrying(bits / 4 % 2 == 1);
    let answer = writer.set_true_count(bits / 8 % 2 == 1);
    put_done_line(out, at, answer)
}

// All that waits dropped.
fn flush(out: &mut [u8], at: usize, writer: &mut CCDataWriter) -> usize
    ensures { Did (flushes_writer writer.old) out.old at result writer.new out.new }
{
    let answer = writer.flush();
    put_done_line(out, at, answer)
}

// The packet pushed.
fn push_packet(out: &mut [u8], at: usize, writer: &mut CCDataWriter, packet: &DTVCCPacket) -> usize
    ensures { Did (pushes_packet packet.now writer.old) out.old at result writer.new out.new }
{
    let answer = writer.push_packet(packet);
    put_done_line(out, at, answer)
}

// A pair pushed.
fn push_pair(out: &mut [u8], at: usize, writer: &mut CCDataWriter, pair: Cea608) -> usize
    ensures { Did (pushes_pair pair writer.old) out.old at result writer.new out.new }
{
    let answer = writer.push_cea608(pair);
    put_done_line(out, at, answer)
}

// The three counts of the multiplexer set, and how many bytes of the packet being sent have left, whatever they break.
fn set_counts(
    out: &mut [u8],
    at: usize,
    writer: &mut CCDataWriter,
    packets: u8,
    sent: u8,
    field1: u8,
    field2: u8,
) -> usize
    ensures { Did (sets_writer (packets ∷ sent ∷ field1 ∷ field2 ∷ []) writer.old)
        out.old at result writer.new out.new }
{
    writer.packet_count = usize::from(packets);
    writer.sent = usize::from(sent);
    writer.field1.count = usize::from(field1);
    writer.field2.count = usize::from(field2);
    put_ok_line(out, at)
}

// The four carried parts of the multiplexer set, whatever they break.
fn set_carry(out: &mut [u8], at: usize, writer: &mut CCDataWriter, parts: &[u8]) -> usize
    ensures { Did (sets_carry parts.now writer.old) out.old at result writer.new out.new }
{
    writer.carry = Carry {
        numer: number_at(parts, 0),
        denom: number_at(parts, 4),
        pairs: number_at(parts, 8),
        triples: number_at(parts, 12),
    };
    put_ok_line(out, at)
}

// A frame written at a rate, to an output of as many bytes as the last argument says, which is told whole.
fn write_frame(out: &mut [u8], at: usize, writer: &mut CCDataWriter, args: &[u8]) -> usize
    ensures { Did (writes_frame args.now writer.old) out.old at result writer.new out.new }
{
    let rate = Framerate::new(number_at(args, 0), number_at(args, 4));
    let mut lent = [0xA5u8; 255];
    let front = &mut lent[..byte_at(args, 8) as usize];
    let answer = writer.write(rate, front);
    put_written_line(out, at, answer, front)
}

// The durations of the multiplexer: field 1, field 2, packets.
fn measured_times(writer: &CCDataWriter) -> Result<[usize; 3], Refusal>
    ensures { outcome result ≡ measured_times writer.now }
{
    let field1 = writer.buffered_cea608_field1_duration()?;
    let field2 = writer.buffered_cea608_field2_duration()?;
    let packets = writer.buffered_packet_duration()?;
    Ok([field1 as usize, field2 as usize, packets as usize])
}

/// An operation on the multiplexer, by its letter and its argument bytes: the place behind the line
/// that tells of it, or `None` for one that there is not, which does nothing.
#[tactic(auto, unfolding(crate::specs::Writers::writer_rows, script_answers::specs::Rows::sought))]
pub fn on_writer(
    out: &mut [u8],
    at: usize,
    packet: &DTVCCPacket,
    writer: &mut CCDataWriter,
    op: u8,
    args: &[u8],
) -> Option<usize>
    ensures { Tried (sought (writer_rows packet.now writer.old) op args.now)
        writer.old out.old at result writer.new out.new }
{
    match (op, args) {
        (b'W', []) => Some(renew(out, at, writer)),
        (b'S', [bits]) => Some(switch(out, at, writer, *bits)),
        (b'x', []) => Some(flush(out, at, writer)),
        (b'Q', [packets, sent, field1, field2]) => {
            Some(set_counts(out, at, writer, *packets, *sent, *field1, *field2))
        }
        (b'C', parts) if parts.len() == 16 => Some(set_carry(out, at, writer, parts)),
        (b'q', []) => Some(push_packet(out, at, writer, packet)),
        (b'1', [a, b]) => Some(push_pair(out, at, writer, Cea608::Field1(*a, *b))),
        (b'2', [a, b]) => Some(push_pair(out, at, writer, Cea608::Field2(*a, *b))),
        (b'w', args) if args.len() == 9 => Some(write_frame(out, at, writer, args)),
        (b'u', []) => Some(put_measures_line(out, at, measured_times(writer))),
        _ => None,
    }
}
