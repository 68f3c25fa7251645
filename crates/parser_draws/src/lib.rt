// Items taken out of what waits: the first pair of the list, or the packet at the head of the ring.
#![tactic(auto)]

ghost use Rattle.std.specs.Prelude.{◌≡◌, ◌≤◌, ◌<◌, ◌+◌, ◌-◌, ◌*◌, cond, Some, None};
ghost use Rattle.model.specs.Packet.{no_packet};
ghost use Rattle.packet.specs.Packet.{laid};
ghost use Rattle.parser_rings.specs.Ring.{slot_run, slot_fine};
ghost use Rattle.parser_draws.specs.Take.{slid, first_pair, packet_at, next_head};
ghost use Rattle.parser_draws.specs.Take.{has_pair, has_packet, head_run};

use basics::MOST_PACKET;
use caption::Cea608;
use packet::DTVCCPacket;
use slots::Slot;

const MOST_PAIRS: usize = 31;

// The first pair of the list.
#[tactic(auto, using(crate::proofs::Draws::pair_first, crate::proofs::Draws::pair_second))]
fn first_pair(pairs: &[u8; 93]) -> Cea608
    ensures { result ≡ first_pair pairs.now }
{
    let x = pairs[1];
    let y = pairs[2];
    if pairs[0] == 0 {
        return Cea608::Field1(x, y);
    }
    Cea608::Field2(x, y)
}

// The list with `n` places moved down by one pair.
fn shift_pairs(pairs: &mut [u8; 93], n: usize)
    requires { n ≤ 90 }
    ensures { pairs.new ≡ slid 3 n pairs.old }
{
    for i in 0..n {
        pairs[i] = pairs[i + 3];
    }
}

/// Takes the first pair out of the list, if it holds one, and no more than there are places for: the others move down [F14].
pub fn take_pair(pairs: &mut [u8; 93], count: &mut usize) -> Option<Cea608>
    ensures pair { result ≡ cond (has_pair count.old) (Some (first_pair pairs.old)) None }
    ensures left { count.new ≡ cond (has_pair count.old) (count.old - 1) count.old }
    ensures places { pairs.new ≡ cond (has_pair count.old) (slid 3 (3 * (count.old - 1)) pairs.old) pairs.old }
{
    let n = *count;
    if n == 0 {
        return None;
    }
    if MOST_PAIRS < n {
        return None;
    }
    let pair = first_pair(pairs);
    shift_pairs(pairs, 3 * (n - 1));
    *count = n - 1;
    Some(pair)
}

/// The packet of no bytes, which stands beside a pair or nothing.
pub fn no_packet() -> DTVCCPacket
    ensures { result ≡ laid no_packet }
{
    DTVCCPacket {
        seq_no: 0,
        count: 0,
        services: 0,
        numbers: [0u8; 63],
        sizes: [0u8; 63],
        payload: [0u8; 127],
    }
}

// The packet that a slot reads as, if it does.
fn read_slot(slot: &Slot) -> Option<DTVCCPacket>
    ensures { result ≡ cond (slot_fine slot.now) (Some (packet_at (slot_run slot.now))) None }
{
    if MOST_PACKET < slot.len {
        return None;
    }
    match DTVCCPacket::parse_in(&slot.bytes, slot.len) {
        Ok(packet) => Some(packet),
        Err(_) => None,
    }
}

/// Takes the packet that has waited longest, if one waits and its slot reads as one [F14]: the ring's head moves on, and starts again at the first place
/// once nothing is left. The slot stays as it is.
pub fn take_packet(slots: &[Slot; 32], first: &mut usize, count: &mut usize) -> Option<DTVCCPacket>
    ensures packet { result ≡ cond (has_packet first.old count.old slots.now)
        (Some (packet_at (head_run first.old slots.now))) None }
    ensures left { count.new ≡ cond (has_packet first.old count.old slots.now) (count.old - 1) count.old }
    ensures head { first.new ≡ cond (has_packet first.old count.old slots.now)
        (next_head first.old count.old) first.old }
{
    if *count == 0 {
        return None;
    }
    if 31 < *first {
        return None;
    }
    let packet = read_slot(&slots[*first])?;
    *count -= 1;
    if *count == 0 {
        *first = 0;
    } else {
        *first = (*first + 1) % 32;
    }
    Some(packet)
}
