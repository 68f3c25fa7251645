// Works out the budgets of each rate of its input a hundred thousand times, to set the time beside the crate's (`oracle/src/bin/budget_speed.rs`). A
// rate is eight bytes, the numerator and the denominator, higher bytes first. Each time the budgets found the time before are added to both, so that
// the next ones cannot be worked out ahead. The line written is how often a rate was accepted and the sums of the pairs and of the triples, and both
// programs write the same.
#![tactic(auto)]

ghost use Rattle.std.specs.Prelude.{◌≡◌, ◌≤◌, length, IfOk, OnErr};

use caption::{Budgets, Framerate, Refusal};
use std::io;
use std::io::Read;

// How often each rate is asked.
const TIMES: usize = 100000;

// What was found so far, and the budgets found last.
#[derive(Clone, Copy, Default)]
struct Totals {
    accepted: u64,
    pairs: u64,
    triples: u64,
    last: usize,
}

// The lower 32 bits of a sum.
fn moved(n: u32, by: usize) -> u32 {
    n.wrapping_add((by % 4294967296) as u32)
}

impl Totals {
    // Adds the budgets of a rate; a refused one adds nothing.
    fn add(&mut self, found: Result<Budgets, Refusal>) {
        self.last = 0;
        if let Ok(Budgets { pairs, triples }) = found {
            self.accepted = self.accepted.wrapping_add(1);
            self.pairs = self.pairs.wrapping_add(pairs as u64);
            self.triples = self.triples.wrapping_add(triples as u64);
            self.last = pairs.wrapping_add(triples);
        }
    }

    // Adds a rate, asked again and again.
    fn ask(&mut self, numer: u32, denom: u32) {
        for _ in 0..TIMES {
            let rate = Framerate::new(moved(numer, self.last), moved(denom, self.last));
            self.add(rate.budgets());
        }
    }
}

// The totals of every rate of the input.
fn with_rates(input: &[u8]) -> Totals {
    let mut totals = Totals::default();
    for rate in input.chunks_exact(8) {
        let numer = u32::from_be_bytes([rate[0], rate[1], rate[2], rate[3]]);
        let denom = u32::from_be_bytes([rate[4], rate[5], rate[6], rate[7]]);
        totals.ask(numer, denom);
    }
    totals
}

// Reads until `buf` is full or the input ends: how many bytes are at its front.
fn read_full(rt: &HostRuntime, buf: &mut [u8]) -> io::Result<usize>
    ensures ok { IfOk result (λ n. n ≤ length buf.new) }
    ensures err { OnErr result (length buf.new ≡ length buf.old) }
{
    let mut done = 0;
    while done < buf.len() {
        let n = rt.stdin().read(&mut buf[done..])?;
        if n == 0 {
            return Ok(done);
        }
        done += n;
    }
    Ok(done)
}

fn main(rt: HostRuntime) -> io::Result<()> {
    let mut input = [0u8; 4096];
    let len = read_full(&rt, &mut input)?;
    let t = with_rates(&input[..len]);
    println!(rt; "{} {} {}", t.accepted, t.pairs, t.triples)
}
