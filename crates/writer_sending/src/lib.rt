// The packet triples of a frame, slot by slot: how many are due, and those that leave. Slots are taken as they are: what they hold is not looked at.
#![tactic(auto)]

ghost use Rattle.std.specs.Prelude.{◌≡◌, ◌+◌, ◌-◌, ◌*◌, ◌≤◌, max, take, drop};
ghost use Rattle.std.proofs.lemmas.List.Edits.{sets};
ghost use Rattle.model.specs.Duration.{bytes_duration};
ghost use Rattle.basics.specs.Cut.{steps_in};
ghost use Rattle.writer_sending.specs.Slots.{triples_left, triples_of, lengths_in, count_of, finished, sent_over, rested, filled};

use basics::{MOST_PACKET, MOST_PACKETS, cut};
use slots::Slot;
use writer_frames::Frame;

// Where sending stands: the packet being sent and how many of its bytes have left, how many packets of the queue were begun, and the frame.
#[derive(Clone, Copy)]
pub struct Sending {
    pub slot: Slot,
    pub sent: usize,
    pub next: usize,
    pub frame: Frame,
}

// The triples left of a packet of `len` bytes, of which `sent` have left.
fn triples_left(len: usize, sent: usize) -> usize
    ensures { (result ≡ triples_left len sent) × (result ≤ 64) × (sent + 2 * result ≤ max 128 sent) }
{
    if MOST_PACKET < len {
        return 0;
    }
    let all = len + len % 2;
    if all < sent {
        return 0;
    }
    (all - sent) / 2
}

// The last triples of a frame, all of one packet.
fn finish(mut s: Sending, left: usize) -> Sending
    ensures { result ≡ finished s left }
{
    let n = left.min(triples_left(s.slot.len, s.sent));
    // two fields of one struct cannot be lent at once
    let mut frame = s.frame;
    frame.carry(&s.slot.bytes, s.sent, n);
    s.frame = frame;
    s.sent += 2 * n;
    s
}

// `left` packet triples, or as many as there are: of the packet being sent, and of those in the queue after it.
fn send(packets: &[Slot; 16], count: usize, start: Sending, left: usize) -> Sending
    requires { start.next ≡ 0 }
    ensures { result ≡ sent_over (take count packets.now) left start }
{
    let queued = count.min(MOST_PACKETS);
    let mut s = start;
    let mut m = left;
    let mut i: usize = 0;
    while i < queued {
        let n = triples_left(s.slot.len, s.sent);
        if m <= n {
            return finish(s, m);
        }
        let mut frame = s.frame;
        frame.carry(&s.slot.bytes, s.sent, n);
        let first = packets[i];
        i += 1;
        m -= n;
        s = Sending {
            slot: first,
            sent: 0,
            next: i,
            frame,
        };
    }
    finish(s, m)
}

// The packet triples that have not left.
fn unsent(packets: &[Slot; 16], count: usize, slot: &Slot, sent: usize) -> usize
    ensures { result ≡ triples_left slot.now.len sent + triples_of (take count packets.now) }
{
    let queued = count.min(MOST_PACKETS);
    let mut sum = triples_left(slot.len, sent);
    let mut i: usize = 0;
    while i < queued {
        sum += triples_left(packets[i].len, 0);
        i += 1;
    }
    sum
}

// The count of a frame with so many turns.
pub fn count_of(
    padding: bool,
    triples: usize,
    turns: usize,
    packets: &[Slot; 16],
    count: usize,
    slot: &Slot,
    sent: usize,
) -> usize
    ensures { result ≡ count_of padding triples turns (take count packets.now) slot.now sent }
{
    if padding {
        return triples;
    }
    if triples <= turns {
        return triples;
    }
    turns + (triples - turns).min(unsent(packets, count, slot, sent))
}

// The triples that a frame of `len` bytes lacks up to a count.
fn lacking(count: usize, len: usize) -> usize
    ensures { result ≡ count - steps_in (len - 2) 3 }
{
    if len < 2 {
        return count;
    }
    let there = cut(len - 2, 3);
    if count < there.count {
        return 0;
    }
    count - there.count
}

// A packet that has left whole is no longer being sent.
fn rest(mut s: Sending) -> Sending
    ensures { result ≡ rested s }
{
    if triples_left(s.slot.len, s.sent) == 0 {
        s.slot.len = 0;
        s.sent = 0;
    }
    s
}

/// Lays packet triples up to the count, and padding after them.
pub fn fill(
    packets: &[Slot; 16],
    queued: usize,
    slot: &Slot,
    sent: usize,
    frame: Frame,
    count: usize,
    padding: bool,
) -> Sending
    ensures { result ≡ filled (take queued packets.now) slot.now sent frame count padding }
{
    let start = Sending {
        slot: *slot,
        sent,
        next: 0,
        frame,
    };
    let left = lacking(count, frame.len);
    let mut s = rest(send(packets, queued, start, left));
    if padding {
        let more = lacking(count, s.frame.len);
        s.frame.pad(more);
    }
    s
}

// The lengths of the packets queued, and three bytes for each triple left of the packet being sent.
fn bytes_left(packets: &[Slot; 16], count: usize, slot: &Slot, sent: usize) -> usize
    ensures { (result ≡ lengths_in (take count packets.now) + 3 * triples_left slot.now.len sent) × (result ≤ 4096) }
{
    let queued = count.min(MOST_PACKETS);
    let mut sum = 3 * triples_left(slot.len, sent);
    let mut i: usize = 0;
    while i < queued {
        sum += packets[i].len.min(MOST_PACKET);
        i += 1;
    }
    sum
}

// How long the packets queued, and what is left of the packet being sent, take to leave: two bytes at a time, 1200000 in 1001 seconds.
// Microseconds, upward.
pub fn packets_duration(packets: &[Slot; 16], count: usize, slot: &Slot, sent: usize) -> u64
    ensures { result ≡ bytes_duration (lengths_in (take count packets.now) + 3 * triples_left slot.now.len sent) }
{
    let bytes = bytes_left(packets, count, slot, sent);
    ((bytes as u64 + 1) / 2 * 2_002_000_000 + 1_199_999) / 1_200_000
}

/// Moves the slots of the packets left down to the first places, once `begun` of the queue have been
/// begun; what stands behind them stays.
pub fn move_down(packets: &mut [Slot; 16], count: usize, begun: usize)
    ensures { packets.new ≡ sets packets.old 0 (drop begun (take count packets.old)) }
{
    let end = count.min(MOST_PACKETS);
    let mut i = if begun == 0 { end } else { begun };
    while i < end {
        packets[i - begun] = packets[i];
        i += 1;
    }
}
