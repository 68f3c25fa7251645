//! The numbers of a distribution packet: which of two counters is newer and which comes next, the sum of its bytes, and the codes of rates.
#![tactic(auto)]

ghost use Rattle.std.specs.Prelude.{◌≡◌, ◌%◌};
ghost use Rattle.model.specs.Distribution.{newer, counter_after, sum_of, closing, is_coded};

/// The highest code of a rate.
pub const MOST_CODE: u8 = 8;

// The most by which a newer counter lies ahead.
const MOST_AHEAD: u16 = 32767;

/// Whether a counter is newer than the last one: its age, by a subtraction that wraps, is 1 to 32,767 [L5].
#[tactic(auto, unfolding(model::specs::Distribution::newer, model::specs::Distribution::ahead))]
pub fn newer(last: u16, counter: u16) -> bool
    ensures { result ≡ newer last counter }
{
    let age = counter.wrapping_sub(last);
    1 <= age && age <= MOST_AHEAD
}

/// The counter behind a counter; 0 behind 65,535 [L5].
#[tactic(auto, unfolding(model::specs::Distribution::counter_after))]
pub fn counter_after(counter: u16) -> u16
    ensures { result ≡ counter_after counter }
{
    counter.wrapping_add(1)
}

/// The sum of bytes modulo 256.
#[tactic(auto, using(crate::proofs::Numbers::sum_next), unfolding(model::specs::Distribution::sum_of))]
pub fn sum_of(bytes: &[u8]) -> u8
    ensures { result ≡ sum_of bytes.now % 256 }
{
    let mut sum: u8 = 0;
    for byte in bytes {
        sum = sum.wrapping_add(*byte);
    }
    sum
}

/// The byte that makes a sum 0 modulo 256 [L1].
#[tactic(auto, unfolding(model::specs::Distribution::closing))]
pub fn closing_byte(sum: u8) -> u8
    ensures { result ≡ closing sum }
{
    0u8.wrapping_sub(sum)
}

/// Whether a rate has this code [L2].
#[tactic(auto, unfolding(model::specs::Distribution::is_coded))]
pub fn is_coded(code: u8) -> bool
    ensures { result ≡ is_coded code }
{
    1 <= code && code <= MOST_CODE
}
