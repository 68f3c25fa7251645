//! The operations of a script, by their letters, on its reader and its writer of distribution packets: each makes its call or sets one of the two,
//! lays the line that tells of it into a lent buffer from a place on, and answers the place behind the line.
#![tactic(auto)]

ghost use Rattle.std.specs.Prelude.{◌≡◌};
ghost use Rattle.program_text.specs.Laid.{Laid};
ghost use Rattle.script_answers.specs.Steps.{Did, lent_out};
ghost use Rattle.script_answers.specs.Rows.{sought, Tried};
ghost use Rattle.script_distribution.specs.Lines.{packet_line, front_line};
ghost use Rattle.script_distribution.specs.Links.{fresh_link, renews_reader, reads_packet, sets_counter, sends, link_rows};

use basics::MOST_FRAME;
use caption::Refusal;
use distribution::{DistributionReader, DistributionWriter, Received};
use program_lines::{put_run, put_value};
use program_records::part;
use program_text::{put_newline, put_word};

/// A reader and a writer of distribution packets.
#[derive(Clone, Copy, Debug, PartialEq, Eq)]
pub struct Link {
    pub reader: DistributionReader,
    pub writer: DistributionWriter,
}

/// Both fresh.
pub fn fresh() -> Link
    ensures { result ≡ fresh_link }
{
    let reader = DistributionReader::new();
    let writer = DistributionWriter::new();
    Link { reader, writer }
}

// A packet that was read: the code of its rate, its counter and its frame.
fn put_packet_line(out: &mut [u8], at: usize, code: u8, counter: u16, frame: &[u8]) -> usize
    ensures { Laid (packet_line code counter frame.now) out.old at result out.new }
{
    let p = put_word(out, at, b"ok");
    let q = put_value(out, p, code as u64);
    let s = put_value(out, q, counter as u64);
    let t = put_run(out, s, frame);
    put_newline(out, t)
}

// What a reader tells of a packet, with its frame at the front of what was lent.
fn put_received_line(
    out: &mut [u8],
    at: usize,
    received: Result<Received, Refusal>,
    lent: &[u8],
) -> usize
    ensures { Laid (front_line received lent.now) out.old at result out.new }
{
    match received {
        Ok(read) => put_packet_line(out, at, read.code, read.counter, part(lent, 0, read.len)),
        Err(why) => script_answers::put_refusal_line(out, at, why),
    }
}

// A fresh reader.
fn new_reader(out: &mut [u8], at: usize, link: &mut Link) -> usize
    ensures { Did (renews_reader link.old) out.old at result link.new out.new }
{
    link.reader = DistributionReader::new();
    script_answers::put_ok_line(out, at)
}

// A packet read, with room for every frame.
fn read_packet(out: &mut [u8], at: usize, link: &mut Link, bytes: &[u8]) -> usize
    ensures { Did (reads_packet bytes.now link.old) out.old at result link.new out.new }
{
    let mut lent = [0xA5u8; MOST_FRAME];
    let received = link.reader.read(bytes, &mut lent);
    put_received_line(out, at, received, &lent)
}

// The next counter of the writer set, whatever it is.
fn set_next(out: &mut [u8], at: usize, link: &mut Link, high: u8, low: u8) -> usize
    ensures { Did (sets_counter high low link.old) out.old at result link.new out.new }
{
    link.writer.next = u16::from_be_bytes([high, low]);
    script_answers::put_ok_line(out, at)
}

// A frame written as a packet to an output of so many bytes, which is told whole.
fn write_packet(
    out: &mut [u8],
    at: usize,
    link: &mut Link,
    code: u8,
    len: u8,
    frame: &[u8],
) -> usize
    ensures { Did (sends code frame.now (lent_out len) link.old) out.old at result link.new out.new }
{
    let mut lent = [0xA5u8; 255];
    let front = &mut lent[..len as usize];
    let answer = link.writer.write(code, frame, front);
    script_answers::put_written_line(out, at, answer, front)
}

/// An operation on both, by its letter and its argument bytes: the place behind the line that tells of it, or `None` for one that there is not, which
/// does nothing.
#[tactic(auto, unfolding(crate::specs::Links::link_rows, script_answers::specs::Rows::sought))]
pub fn on_link(out: &mut [u8], at: usize, link: &mut Link, op: u8, args: &[u8]) -> Option<usize>
    ensures { Tried (sought (link_rows link.old) op args.now)
        link.old out.old at result link.new out.new }
{
    match (op, args) {
        (b'X', []) => Some(new_reader(out, at, link)),
        (b'<', bytes) => Some(read_packet(out, at, link, bytes)),
        (b'Y', [high, low]) => Some(set_next(out, at, link, *high, *low)),
        (b'>', [code, len, frame @ ..]) => Some(write_packet(out, at, link, *code, *len, frame)),
        _ => None,
    }
}
