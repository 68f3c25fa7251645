//! Runs as they are handed over, a service and a length for each, and whether each of them fits into a block.
#![tactic(auto)]

ghost use Rattle.std.specs.Prelude.{◌≡◌, ◌<◌, get_or};
ghost use Rattle.model_packing.specs.Proposals.{run_fits, runs_fit};

use basics::{MOST_NUMBER, MOST_PAYLOAD};

/// The most runs of a proposal.
pub const MOST_RUNS: usize = 256;

/// How many numbers a piece is made of.
pub const PIECE: usize = 5;

/// How many numbers packets have, and the blocks of a packet.
pub const MOST_NUMBERS: usize = 256;

// The highest service.
const MOST_SERVICE: usize = MOST_NUMBER as usize;

/// The number at a place; 0 where there is none.
pub fn number_at(numbers: &[u8], at: usize) -> usize
    ensures value { result ≡ get_or numbers.now at 0 }
    ensures small { result < 256 }
{
    match numbers.get(at) {
        Some(number) => *number as usize,
        None => 0,
    }
}

// Whether a run may stand in a packet as a block [Q6].
#[tactic(auto, using(crate::proofs::Runs::fits_unnamed, crate::proofs::Runs::fits_unknown, crate::proofs::Runs::fits_empty, crate::proofs::Runs::fits_some))]
fn run_fits(services: &[u8], lengths: &[u8], run: usize) -> bool
    ensures { result ≡ run_fits services.now lengths.now run }
{
    let service = number_at(services, run);
    let length = number_at(lengths, run);
    1 <= service && service <= MOST_SERVICE && 1 <= length && length <= MOST_PAYLOAD
}

/// Whether every run fits [Q6].
pub fn runs_fit(services: &[u8], lengths: &[u8]) -> bool
    ensures { result ≡ runs_fit services.now lengths.now }
{
    for run in 0..services.len() {
        if !run_fits(services, lengths, run) {
            return false;
        }
    }
    true
}
