// The ring of slots that wait: whether those that wait read as packets.
#![tactic(auto)]

ghost use Rattle.std.specs.Prelude.{◌≡◌};
ghost use Rattle.parser_rings.specs.Ring.{slot_fine};
ghost use Rattle.parser_rings.specs.Tests.{ring_fine};

use basics::{MOST_PACKET, MOST_WAITING};
use slots::Slot;

/// Whether a slot reads as a packet.
#[tactic(auto, using(crate::proofs::Slots::slot_long, crate::proofs::Slots::slot_within))]
pub fn slot_good(slot: &Slot) -> bool
    ensures { result ≡ slot_fine slot.now }
{
    if MOST_PACKET < slot.len {
        return false;
    }
    packet::reads_in(&slot.bytes, slot.len)
}

/// Whether a ring is within its limits [S4]: its head is one of the 32 places, and each of the `count` slots that wait from there on, going round, reads
/// as a packet.
pub fn ring_good(slots: &[Slot; 32], first: usize, count: usize) -> bool
    ensures { result ≡ ring_fine first count slots.now }
{
    if MOST_WAITING <= first {
        return false;
    }
    if MOST_WAITING < count {
        return false;
    }
    for i in 0..count {
        if !slot_good(&slots[(first + i) % 32]) {
            return false;
        }
    }
    true
}
