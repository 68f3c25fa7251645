// Reads records of frames and of distribution packets from standard input to its end and writes what each of them holds [C2] [C5]. Reads and writes go through two buffers of fixed size, whatever the input's length and cut.
#![tactic(auto)]

ghost use Rattle.std.specs.Prelude.{◌≡◌, false, [], ◌∷◌, ◌+◌, ◌≤◌, length, IfOk, OnErr};
ghost use Rattle.program_text.specs.Laid.{Whole};
ghost use Rattle.ccread_report.specs.Report.{record_lines, recorded};
ghost use Rattle.ccread.specs.Walk.{kinds, telling, room_fits, Ran, Broke, fresh_capture, fresh_reader};

use ccread_report::{Capture, Recorded};
use distribution::DistributionReader;
use parser::CCDataParser;
use program_streams::{Held, Teller};
use std::io;
use std::io::{Read, Write};

// The lines of a record: where there is room for 32768 bytes, none of them is cut.
fn put_record(
    out: &mut [u8],
    at: usize,
    number: u64,
    kind: u8,
    bytes: &[u8],
    capture: Capture,
) -> Recorded
    ensures whole { at + 32768 ≤ length out.old
        → Whole (record_lines number kind bytes.now capture) out.old at result.laid out.new }
    ensures capture_value { result.capture ≡ recorded kind bytes.now capture }
{
    ccread_report::put_record(out, at, number, kind, bytes, capture)
}

// What the program reads with.
#[derive(Clone, Copy)]
struct Reader {
    capture: Capture,
}

impl Teller for Reader {
    ghost kinds = { kinds };

    ghost ROOM = { 32768 };

    ghost fits = { room_fits };

    ghost telling = { telling };

    // The lines of a record have at most 32768 bytes.
    const ROOM: usize = 32768;

    // A frame and a packet [C1].
    fn kinds(&self) -> &[u8] {
        &[0xDA, 0xCD]
    }

    fn tell(&mut self, out: &mut [u8], at: usize, number: u64, kind: u8, bytes: &[u8]) -> usize {
        let told = put_record(out, at, number, kind, bytes, self.capture);
        self.capture = told.capture;
        told.laid
    }
}

// A demultiplexer with 608 on, and a fresh reader.
fn fresh_capture() -> Capture
    ensures { result ≡ fresh_capture }
{
    let mut parser = CCDataParser::new();
    // A fresh one is within its limits, so that this is accepted.
    let _ = parser.handle_cea608();
    let reader = DistributionReader::new();
    Capture { parser, reader }
}

// Nothing is read.
fn fresh() -> Reader
    ensures { result ≡ fresh_reader }
{
    Reader {
        capture: fresh_capture(),
    }
}

// Reads the input to its end, and leaves where the program stands then. Where a read or a write fails, that is where it stood before that step:
// of what the step completes a part may be told.
fn run<R: Read, W: Write>(
    input: &mut R,
    output: &mut W,
    buf: &mut [u8],
    out: &mut [u8; 65536],
    held: &mut Held,
    reader: &mut Reader,
) -> io::Result<()>
    ensures ok { IfOk result (λ _. held.new.going ≡ false
        → Ran (R.remaining input.old) (R.remaining input.new)
        (W.contents output.old) (W.contents output.new) buf.new held.new reader.new) }
    ensures err { OnErr result (Broke buf.new held.new reader.new) }
{
    *reader = fresh();
    program_streams::run(input, output, buf, out, held, reader)
}

fn main(rt: HostRuntime) -> io::Result<()> {
    let mut buf = [0u8; 65536];
    let mut out = [0u8; 65536];
    let mut held = program_streams::unread();
    let mut reader = fresh();
    let mut input = rt.stdin();
    let mut output = rt.stdout();
    run(
        &mut input,
        &mut output,
        &mut buf,
        &mut out,
        &mut held,
        &mut reader,
    )
}
