// Reads one job from standard input to its end and writes what it is told [Q9]. The job is kept in a buffer of fixed size; of what is beyond that, how many bytes it is modulo 5 tells enough.
#![tactic(auto)]

ghost use Rattle.std.specs.Prelude.{◌≡◌, false, ◌≤◌, ◌<◌, ltb, length, take, IfOk, OnErr};
ghost use Rattle.program_streams.specs.Walk.{Follow};
ghost use Rattle.ccpack_report.specs.Jobs.{most_kept};
ghost use Rattle.ccpack.specs.Input.{Tells, Steps, Ran, unread_yet};

use ccpack_report::MOST_KEPT;
use program_records::part;
use std::io;
use std::io::Read;

// How far the input is read: so many bytes of it are in the buffer, those beyond are so many modulo 5, and whether there may be more.
#[derive(Clone, Copy)]
struct Reading {
    have: usize,
    over: usize,
    going: bool,
}

// Room for the bytes of a job that are kept.
fn job_buffer() -> [u8; 327680]
    ensures { length result ≡ most_kept }
{
    [0; 327680]
}

// Hands a text to standard output: what is told of the input that was read.
fn send(rt: &HostRuntime, text: &[u8], buf: &[u8], s: Reading) -> io::Result<()>
    requires { Tells text.now buf.now s }
{
    rt.write_all(text)
}

// What is told of the input that was read.
fn tell(rt: &HostRuntime, buf: &[u8], out: &mut [u8], s: Reading) -> io::Result<()>
    requires buf_len { length buf.now ≡ most_kept }
    requires in_bounds { 8192 ≤ length out.old }
    ensures err { OnErr result (length out.new ≡ length out.old) }
{
    let end = ccpack_report::put_job(out, 0, part(buf, 0, s.have), s.over);
    send(rt, part(out, 0, end), buf, s)
}

// One read of the input, behind the bytes that are there: how many bytes it gave. There is room for one at least, so that none are given only at the end.
fn read_more(rt: &HostRuntime, buf: &mut [u8], have: usize) -> io::Result<usize>
    requires { have < length buf.old }
    ensures ok { IfOk result (λ n. Follow buf.old have n buf.new) }
    ensures err { OnErr result (take have buf.new ≡ take have buf.old) }
{
    rt.stdin().read(&mut buf[have..])
}

// How far the input is read when the last read gave n bytes.
fn read_on(have: usize, over: usize, n: usize) -> Reading
    ensures { result ≡ record { have = have; over = over; going = ltb 0 n } }
{
    Reading {
        have,
        over,
        going: 0 < n,
    }
}

// One read of the input, into the place that is left in the buffer, or past it.
fn step(rt: &HostRuntime, buf: &mut [u8], out: &mut [u8], s: Reading) -> io::Result<Reading>
    requires buf_len { length buf.old ≡ most_kept }
    requires in_bounds { 8192 ≤ length out.old }
    requires have_le_most_kept { s.have ≤ most_kept }
    requires over_bound { s.over < 5 }
    ensures steps { IfOk result (λ r. Steps buf.old s buf.new r) }
    ensures have_le_most_kept_2 { IfOk result (λ r. (r.have ≤ most_kept) × (r.over < 5)) }
    ensures err { OnErr result (take s.have buf.new ≡ take s.have buf.old) }
{
    let have = s.have;
    if have < MOST_KEPT {
        let n = read_more(rt, buf, have)?;
        return Ok(read_on(have + n, s.over, n));
    }
    let n = read_more(rt, out, 0)?;
    Ok(read_on(have, (s.over + n) % 5, n))
}

// Nothing is read.
fn unread() -> Reading
    ensures { result ≡ unread_yet }
{
    Reading {
        have: 0,
        over: 0,
        going: true,
    }
}

// Reads the input to its end, tells what is told of it, and leaves how far it is read then. Where a read fails, that is how far it was read before, and
// nothing is told; where the write does, a part may be told.
fn run(rt: &HostRuntime, buf: &mut [u8], out: &mut [u8], s: &mut Reading) -> io::Result<()>
    requires buf_len { length buf.old ≡ most_kept }
    requires in_bounds { 8192 ≤ length out.old }
    ensures ok { IfOk result (λ _. s.new.going ≡ false → Ran buf.new s.new) }
    ensures err { OnErr result (Ran buf.new s.new) }
{
    *s = unread();
    let mut turns = u64::MAX;
    while turns > 0 {
        turns -= 1;
        *s = step(rt, buf, out, *s)?;
        if !s.going {
            tell(rt, buf, out, *s)?;
            return Ok(());
        }
    }
    Ok(())
}

fn main(rt: HostRuntime) -> io::Result<()> {
    let mut buf = job_buffer();
    let mut out = [0u8; 65536];
    let mut s = unread();
    run(&rt, &mut buf, &mut out, &mut s)
}
