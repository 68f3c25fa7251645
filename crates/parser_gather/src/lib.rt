// Packets gathered from the triples of a frame: the bytes of one that is not complete, and the ring of slots that wait.
#![tactic(auto)]

ghost use Rattle.std.specs.Prelude.{◌≡◌, true, cond, ◌&&◌, List, ℕ, ◌+◌, ◌*◌, ◌^◌, ◌≤◌, ◌<◌, length, take, replicate, eqb};
ghost use Rattle.std.proofs.lemmas.List.Edits.{sets};
ghost use Rattle.model.specs.Frame.{seen, tri};
ghost use Rattle.model.specs.Packet.{reads};
ghost use Rattle.parser_gather.specs.Tests.{pending_fine, ready_for};
ghost use Rattle.parser_rings.specs.Ring.{cleared_for};
ghost use Rattle.parser_gather.specs.Gather.{triple_at, Sized, held_by, put_two, Holds, put};
ghost use Rattle.parser_gather.specs.Gather.{closes_by, kept_slots, left_in, left_gathered, left_after};

use basics::{MOST_WAITING, put_bytes};
use slots::Slot;

// The bytes that a packet still wants, and those gathered of it.
#[derive(Clone, Copy)]
pub struct Run {
    pub need: usize,
    pub len: usize,
}

// A triple of a frame.
#[derive(Clone, Copy)]
struct Triple {
    kind: u8,
    x: u8,
    y: u8,
}

/// What a frame leaves: how many slots wait, and how many bytes are pending.
#[derive(Clone, Copy, Debug, PartialEq, Eq)]
pub struct Remains {
    pub waiting: usize,
    pub pending: usize,
}

// Two bytes more of a packet, while any are wanted.
fn put_two(s: Run, bytes: &mut [u8; 128], x: u8, y: u8) -> Run
    requires { Sized s }
    ensures bytes_after { held_by result bytes.new ≡ put_two x y (held_by s bytes.old) }
    ensures sized { Sized result }
{
    let at = s.len;
    let need = s.need;
    if need == 0 {
        return s;
    }
    bytes[at] = x;
    bytes[at + 1] = y;
    Run {
        need: need - 2,
        len: at + 2,
    }
}

// The two bytes of a triple: more of the packet, the first of a new one in places that are cleared, or none of a packet.
fn put_triple(s: Run, bytes: &mut [u8; 128], c: u8, x: u8, y: u8) -> Run
    requires { Sized s }
    ensures by_index { (g : List ℕ) → Holds (held_by s bytes.old) g →
        Holds (held_by result bytes.new) (put (seen (tri c x y)) g) }
    ensures sized { Sized result }
{
    let v = c % 8;
    if v < 6 {
        return s;
    }
    if v == 6 {
        return put_two(s, bytes, x, y);
    }
    *bytes = [0u8; 128];
    let need = packet::packet_size(x);
    put_two(Run { need, len: 0 }, bytes, x, y)
}

// The pending bytes as a packet being gathered, laid into cleared places.
fn run_of(pending: &[u8; 128], len: usize, bytes: &mut [u8; 128]) -> Run
    requires pending_value { pending_fine len pending.now ≡ true }
    requires bytes_value { bytes.old ≡ replicate 128 0 }
    ensures holds { Holds (held_by result bytes.new) (take len pending.now) }
    ensures sized { Sized result }
{
    if len == 0 {
        return Run { need: 0, len };
    }
    put_bytes(bytes, 0, &pending[0..len]);
    Run {
        need: packet::packet_size(pending[0]) - len,
        len,
    }
}

// Whether a triple closes gathered bytes that read as a packet.
fn closes(c: u8, bytes: &[u8; 128], len: usize) -> bool
    requires { len ≤ 128 }
    ensures { (x y : ℕ) → result ≡ closes_by (seen (tri c x y)) (take len bytes.now) }
{
    if c % 8 < 7 {
        return false;
    }
    packet::reads_in(bytes, len)
}

// Whether a packet is complete at the frame's end, and reads.
fn completes(s: Run, bytes: &[u8; 128]) -> bool
    requires { Sized s }
    ensures { result ≡ (eqb s.need 0 && reads (take s.len bytes.now)) }
{
    let len = s.len;
    if s.need != 0 {
        return false;
    }
    packet::reads_in(bytes, len)
}

// How many bytes are pending after the frame's end.
fn left_of(s: Run) -> usize
    ensures { result ≡ cond (eqb s.need 0) 0 s.len }
{
    if s.need == 0 {
        return 0;
    }
    s.len
}

// Lays the bytes that are left over the pending ones; and how many they are.
fn keep_left(s: Run, bytes: &[u8; 128], pending: &mut [u8; 128]) -> usize
    requires { Sized s }
    ensures value { result ≡ cond (eqb s.need 0) 0 s.len }
    ensures pending_after { pending.new ≡ sets pending.old 0 (take result bytes.now) }
{
    let left = left_of(s);
    put_bytes(pending, 0, &bytes[0..left]);
    left
}

// The triple at a place of a frame.
fn triple_at(frame: &[u8], i: usize) -> Triple
    requires { 3 * i + 4 < length frame.now }
    ensures { result ≡ triple_at i frame.now }
{
    Triple {
        kind: frame[3 * i + 2],
        x: frame[3 * i + 3],
        y: frame[3 * i + 4],
    }
}

// The slots that a packet comes to: cleared ones where none waits.
fn clear_empty(slots: &mut [Slot; 32], n: usize)
    ensures { slots.new ≡ cleared_for n slots.old }
{
    if n == 0 {
        *slots = [Slot {
            len: 0,
            bytes: [0u8; 128],
        }; 32];
    }
}

// Lays a packet's bytes into the slot behind the `n` that wait.
fn keep(slots: &mut [Slot; 32], first: usize, n: usize, bytes: &[u8; 128], len: usize)
    requires first_bound { first < 32 }
    requires count_bound { n < 2 ^ 63 }
    ensures { slots.new ≡ kept_slots first n slots.old len bytes.now }
{
    clear_empty(slots, n);
    let place = &mut slots[(first + n) % 32];
    place.len = len;
    place.bytes = *bytes;
}

// Gathers packets from a frame, in a ring and over pending bytes that are within their limits.
fn gather_within(
    first: usize,
    count: usize,
    slots: &mut [Slot; 32],
    len: usize,
    pending: &mut [u8; 128],
    frame: &[u8],
) -> Remains
    requires first_bound { first < 32 }
    requires count_bound { count ≤ 32 }
    requires pending_value { pending_fine len pending.old ≡ true }
    ensures { left_in result pending.new slots.new
        ≡ left_gathered first count slots.old len pending.old frame.now }
{
    let mut n = count;
    let mut bytes = [0u8; 128];
    let mut s = run_of(pending, len, &mut bytes);
    let mut i = 0;
    while 3 * i + 4 < frame.len() {
        let w = triple_at(frame, i);
        if closes(w.kind, &bytes, s.len) {
            keep(slots, first, n, &bytes, s.len);
            n += 1;
        }
        s = put_triple(s, &mut bytes, w.kind, w.x, w.y);
        i += 1;
    }
    if completes(s, &bytes) {
        keep(slots, first, n, &bytes, s.len);
        n += 1;
    }
    let left = keep_left(s, &bytes, pending);
    Remains {
        waiting: n,
        pending: left,
    }
}

/// Whether the pending bytes are none, or a part of a packet.
pub fn pending_good(bytes: &[u8; 128], len: usize) -> bool
    ensures { result ≡ pending_fine len bytes.now }
{
    if len == 0 {
        return true;
    }
    if len % 2 != 0 {
        return false;
    }
    len < packet::packet_size(bytes[0])
}

// Whether there are pending bytes and a ring that packets can be gathered into.
fn ready(first: usize, count: usize, len: usize, pending: &[u8; 128]) -> bool
    ensures { result ≡ ready_for first count len pending.now }
{
    if MOST_WAITING <= first {
        return false;
    }
    if MOST_WAITING < count {
        return false;
    }
    pending_good(pending, len)
}

/// Gathers packets from a frame [F9] to [F12]: bytes that are closed and read as a packet go into the slot behind the last waiting one, cleared ones where
/// none waits, and bytes that are left over the pending ones. More than 32 packets go round: the caller refuses such a frame. A ring or pending bytes
/// that break a limit stay as they are.
pub fn gather_frame(
    first: usize,
    count: usize,
    slots: &mut [Slot; 32],
    len: usize,
    pending: &mut [u8; 128],
    frame: &[u8],
) -> Remains
    ensures { left_in result pending.new slots.new
        ≡ left_after first count slots.old len pending.old frame.now }
{
    if !ready(first, count, len, pending) {
        return Remains {
            waiting: count,
            pending: len,
        };
    }
    gather_within(first, count, slots, len, pending, frame)
}
