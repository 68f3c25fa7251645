// The services of a packet as a set of 64 bits, bit k for service k: worked out from the numbers of its blocks, and counted.
#![tactic(auto)]

ghost use Rattle.std.specs.Prelude.{◌≡◌};
ghost use Rattle.std.specs.Int.Count.{ones};
ghost use Rattle.packet_services.specs.Services.{with_number, services_to};

use basics::{MOST_BLOCKS, MOST_NUMBER};

// The set with a number more; it has no bit for one above 63.
fn with_number(set: u64, number: u8) -> u64
    ensures { result ≡ with_number set number }
{
    if MOST_NUMBER < number {
        return set;
    }
    set | (1u64 << (number as u32))
}

/// The set of the first `count` numbers; empty where there are fewer places.
#[tactic(auto, using(crate::proofs::Services::set_many))]
pub fn services_to(numbers: &[u8; 63], count: usize) -> u64
    ensures { result ≡ services_to count numbers.now }
{
    if MOST_BLOCKS < count {
        return 0;
    }
    let all = &numbers[..];
    let mut set: u64 = 0;
    for &number in &all[..count] {
        set = with_number(set, number);
    }
    set
}

/// How many services a set has: as many as ones.
pub fn how_many(set: u64) -> usize
    ensures { result ≡ ones set }
{
    u64::count_ones(set) as usize
}
