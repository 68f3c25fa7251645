// A slot: the bytes that a packet is written in, and the test whether they are that; and the same test of the slots of a multiplexer, the one
// being sent and those that wait.
#![tactic(auto)]

ghost use Rattle.std.specs.Prelude.{◌≡◌, ◌&&◌, ◌+◌, ◌≤◌, ltb, length, get_or, take, drop};
ghost use Rattle.model.specs.Lists.{every};
ghost use Rattle.slots.specs.Slot.{written_slot};
ghost use Rattle.slots.specs.Walk.{block_span, whole_blocks};
ghost use Rattle.slots.specs.Row.{valid_slots};
ghost use Rattle.slots.specs.Steps.{written_if, sends_whole};

use basics::{MOST_PACKET, MOST_PACKETS};

// The fewest bytes of a packet that is not empty.
const LEAST_PACKET: usize = 3;

/// An encoded packet in a queue: its length, and from place 0 the bytes that it is written in. In the
/// multiplexer's queue 0x00 follows them if the length is odd.
#[derive(Clone, Copy)]
pub struct Slot {
    pub len: usize,
    pub bytes: [u8; 128],
}

impl Slot {
    /// Whether the bytes are the written form of a packet that is not empty.
    pub fn is_written(&self) -> bool
        ensures { result ≡ written_slot self.now }
    {
        if self.len < LEAST_PACKET {
            return false;
        }
        if MOST_PACKET < self.len {
            return false;
        }
        if self.bytes[0] as usize % 64 != (self.len + 1) / 2 % 64 {
            return false;
        }
        if self.len % 2 == 1 {
            if self.bytes[self.len] != 0 {
                return false;
            }
        }
        blocks_whole(&self.bytes, self.len)
    }
}

// Whether the bytes from the second to the last of `len` are written blocks, one after another.
fn blocks_whole(bytes: &[u8; 128], len: usize) -> bool
    requires { (1 ≤ len) × (len ≤ 128) × (length bytes.now ≡ 128) }
    ensures { result ≡ whole_blocks 0 (drop 1 (take len bytes.now)) }
{
    let mut at: usize = 1;
    while at < len {
        let second = byte_at(bytes, at + 1, len);
        let span = block_span(bytes[at], second);
        if span == 0 {
            return false;
        }
        if len - at < span {
            return false;
        }
        at += span;
    }
    true
}

// The byte at a place below `len`, and 0 past them.
fn byte_at(bytes: &[u8; 128], at: usize, len: usize) -> u8
    requires { len ≤ 128 }
    ensures { result ≡ get_or (take len bytes.now) at 0 }
{
    if at < len {
        return bytes[at];
    }
    0
}

// How many bytes a written block takes whose first two are these; 0 where no written block starts so.
fn block_span(h: u8, second: u8) -> usize
    ensures { (result ≡ block_span h second) × (result ≤ 33) }
{
    let size = (h % 32) as usize;
    let top = h / 32;
    if size == 0 {
        return 0;
    }
    if top == 0 {
        return 0;
    }
    if top < 7 {
        return 1 + size;
    }
    if second < 7 {
        return 0;
    }
    if 63 < second {
        return 0;
    }
    2 + size
}

/// Whether the slots are within their limits: `sending`, of which `sent` bytes have left, and the
/// first `count` of the queue [W14].
pub fn slots_written(sending: &Slot, sent: usize, packets: &[Slot; 16], count: usize) -> bool
    ensures { result ≡ valid_slots sending.now sent packets.now count }
{
    if MOST_PACKETS < count {
        return false;
    }
    if sends_whole(sending.len, sent) {
        return row_written(sending, &packets[..count]);
    }
    false
}

// Whether `sent` bytes can have left of a packet of `len`: an even number, and no more than there are.
#[tactic(auto, unfolding(crate::specs::Steps::sends_whole))]
fn sends_whole(len: usize, sent: usize) -> bool
    ensures { result ≡ sends_whole len sent }
{
    if MOST_PACKET < len {
        return false;
    }
    if sent % 2 == 0 {
        return sent <= len + len % 2;
    }
    false
}

// Whether a slot, if it is taken, and those of the queue are written packets.
fn row_written(slot: &Slot, queue: &[Slot]) -> bool
    ensures { result ≡ (written_if (ltb 0 slot.now.len) slot.now && every written_slot queue.now) }
{
    if 0 < slot.len {
        if !slot.is_written() {
            return false;
        }
    }
    all_written(queue)
}

// Whether each slot is a written packet.
fn all_written(queue: &[Slot]) -> bool
    ensures { result ≡ every written_slot queue.now }
{
    queue.iter().all(|slot| slot.is_written())
}
