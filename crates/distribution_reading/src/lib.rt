//! The packet in some bytes, whatever came before it: its mark, its sections, its sum and its two counters are looked at in this order.
#![tactic(auto)]

ghost use Rattle.std.specs.Prelude.{◌≡◌, ◌+◌, ◌≤◌, length};
ghost use Rattle.caption.specs.Answers.{outcome};
ghost use Rattle.model.specs.Said.{mapped};
ghost use Rattle.model.specs.Distribution.{has_mark, announces_more, sections_in_order, counter_at, opened};
ghost use Rattle.distribution_reading.specs.Opened.{fields_of};

use caption::Refusal;
use distribution_numbers::{is_coded, sum_of};

// The bytes of a packet without triples.
const LEAST: usize = 13;

/// What a packet holds: the code of its rate, its counter, and how many triples.
#[derive(Clone, Copy, Debug, PartialEq, Eq)]
pub struct Opened {
    pub code: u8,
    pub counter: u16,
    pub count: usize,
}

// Whether the mark of a packet stands first.
#[tactic(auto, using(crate::proofs::Order::short_unmarked), unfolding(model::specs::Distribution::has_mark))]
fn has_mark(packet: &[u8]) -> bool
    ensures { result ≡ has_mark packet.now }
{
    if packet.len() < 2 {
        return false;
    }
    packet[0] == 0x96 && packet[1] == 0x69
}

// Whether flags announce a section that is not taken up: time code, or service information.
#[tactic(auto, unfolding(model::specs::Distribution::announces_more))]
fn announces_more(flags: u8) -> bool
    ensures { result ≡ announces_more flags }
{
    flags / 128 % 2 != 0 || flags / 32 % 2 != 0
}

// Whether length, rate, flags, sections and count are in order.
#[tactic(auto, unfolding(model::specs::Distribution::sections_in_order))]
fn in_order(packet: &[u8]) -> bool
    ensures { result ≡ sections_in_order packet.now }
{
    let n = packet.len();
    LEAST <= n
        && packet[2] as usize == n
        && is_coded(packet[3] / 16)
        && !announces_more(packet[4])
        && packet[7] == 0x72
        && packet[n - 4] == 0x74
        && n == LEAST + 3 * (packet[8] % 32) as usize
}

// The counter in the two bytes from `at` on, the higher first.
fn counter_at(packet: &[u8], at: usize) -> u16
    requires { at + 2 ≤ length packet.now }
    ensures { result ≡ counter_at at packet.now }
{
    u16::from_be_bytes([packet[at], packet[at + 1]])
}

/// The packet in some bytes [L4]. Refused, in this order: `BadMark`, `BadSection`, `BadSum`, `CountersDiffer`.
#[tactic(auto, using(crate::proofs::Order::enough), unfolding(model::specs::Distribution::opened, model::specs::Distribution::sums_up, model::specs::Distribution::counters_agree))]
pub fn open(packet: &[u8]) -> Result<Opened, Refusal>
    ensures { outcome result ≡ mapped fields_of (opened packet.now) }
{
    if !has_mark(packet) {
        return Err(Refusal::BadMark);
    }
    if !in_order(packet) {
        return Err(Refusal::BadSection);
    }
    if sum_of(packet) != 0 {
        return Err(Refusal::BadSum);
    }
    let counter = counter_at(packet, 5);
    if counter != counter_at(packet, packet.len() - 3) {
        return Err(Refusal::CountersDiffer);
    }
    Ok(Opened {
        code: packet[3] / 16,
        counter,
        count: (packet[8] % 32) as usize,
    })
}
