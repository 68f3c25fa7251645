// Makes the calls that a script names: records of mark CC 5C from standard input to its end, each an operation and its
// argument bytes, and for each a line that tells what the call answered. Reads and writes go through two buffers of fixed size, whatever the
// input's length and cut.
#![tactic(auto)]

ghost use Rattle.std.specs.Prelude.{◌≡◌, false, [], ◌∷◌, IfOk, OnErr};
ghost use Rattle.ccscript.specs.Walk.{kinds, telling, room_fits, Ran, Broke, fresh_runner};

use program_streams::{Held, Teller};
use script_operations::Machine;
use std::io;
use std::io::{Read, Write};

// What the operations left.
#[derive(Clone, Copy)]
struct Runner {
    machine: Machine,
}

impl Teller for Runner {
    ghost kinds = { kinds };

    ghost ROOM = { 600 };

    ghost fits = { room_fits };

    ghost telling = { telling };

    // A line has at most 31 bytes, and behind them either the hex of 255 bytes or 63 blocks of 127 bytes in all: below 600 bytes. A longer one
    // would not be told.
    const ROOM: usize = 600;

    fn kinds(&self) -> &[u8] {
        &[0x5C]
    }

    // Runs a record and lays its line behind those that wait.
    fn tell(&mut self, out: &mut [u8], at: usize, _number: u64, _kind: u8, bytes: &[u8]) -> usize {
        let end = script_operations::run_record(out, at, &mut self.machine, bytes);
        let size = end.saturating_sub(at);
        if size < Self::ROOM {
            return end;
        }
        at
    }
}

// Nothing is read.
fn fresh() -> Runner
    ensures { result ≡ fresh_runner }
{
    Runner {
        machine: script_operations::fresh(),
    }
}

// Reads the input to its end, and leaves where the program stands then. Where a read or a write fails, that is where it stood before that step:
// of what the step completes a part may be told.
fn run<R: Read, W: Write>(
    input: &mut R,
    output: &mut W,
    buf: &mut [u8],
    out: &mut [u8; 65536],
    held: &mut Held,
    runner: &mut Runner,
) -> io::Result<()>
    ensures ok { IfOk result (λ _. held.new.going ≡ false
        → Ran (R.remaining input.old) (R.remaining input.new)
        (W.contents output.old) (W.contents output.new) buf.new held.new runner.new) }
    ensures err { OnErr result (Broke buf.new held.new runner.new) }
{
    *runner = fresh();
    program_streams::run(input, output, buf, out, held, runner)
}

fn main(rt: HostRuntime) -> io::Result<()> {
    let mut buf = [0u8; 65536];
    let mut out = [0u8; 65536];
    let mut held = program_streams::unread();
    let mut runner = fresh();
    let mut input = rt.stdin();
    let mut output = rt.stdout();
    run(
        &mut input,
        &mut output,
        &mut buf,
        &mut out,
        &mut held,
        &mut runner,
    )
}
