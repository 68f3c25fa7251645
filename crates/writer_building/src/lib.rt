// A frame put together: the turns of the two fields, packet triples and padding; and what they leave.
#![tactic(auto)]

ghost use Rattle.std.specs.Prelude.{◌≡◌, false};
ghost use Rattle.writer_building.specs.Building.{turns_of, sent_of, counted_of, built_by, built};

use basics::MOST_QUEUED;
use slots::Slot;
use writer_frames::Frame;
use writer_queues::PairQueue;
use writer_sending::{count_of, fill};
use writer_shares::{Carry, Share};
use writer_turns::Turns;

/// What a frame is made of beside the slots: the two paddings, the true count, the carried parts, the queues of pairs and whose turn is next, how many
/// packets wait, and the packet being sent with how many of its bytes have left.
#[derive(Clone, Copy)]
pub struct Source {
    pub pad: bool,
    pub padding: bool,
    pub true_count: bool,
    pub carry: Carry,
    pub field1: PairQueue,
    pub field2: PairQueue,
    pub field2_next: bool,
    pub queued: usize,
    pub slot: Slot,
    pub sent: usize,
}

/// The frame, and what it leaves of the state: the carried parts, each field's queue, whose turn is next, the packet
/// being sent and how many of its bytes have left; `next` packets of the queue were begun.
#[derive(Clone, Copy)]
pub struct Made {
    pub frame: Frame,
    pub carry: Carry,
    pub field1: PairQueue,
    pub field2: PairQueue,
    pub field2_next: bool,
    pub slot: Slot,
    pub sent: usize,
    pub next: usize,
}

// The turns of a frame, where the fields have `n1` and `n2` pairs queued.
fn turns_of(pad: bool, pairs: usize, n1: usize, n2: usize) -> usize
    ensures { result ≡ turns_of pad pairs n1 n2 }
{
    if pad {
        return pairs;
    }
    pairs.min(n1.max(2 * n2.min(MOST_QUEUED)))
}

// The turns that will send, of so many without 608 padding: those that find a pair. A turn of field 2 finds one of its own; a turn of field 1 finds
// one of its own, or one that field 2 still has.
fn sending_of(turns: usize, field2_next: bool, n1: usize, n2: usize) -> usize
    ensures { result ≡ sent_of false turns field2_next n1 n2 }
{
    let second = turns / 2;
    let first = turns - second;
    if field2_next {
        let left = n2 - n2.min(1);
        return first.min(n2) + second.min(n1.max(left));
    }
    first.min(n1.max(n2)) + second.min(n2)
}

// The turns that the count counts: all, or with the true count those that will send.
fn counted_of(
    true_count: bool,
    pad: bool,
    turns: usize,
    field2_next: bool,
    n1: usize,
    n2: usize,
) -> usize
    ensures { result ≡ counted_of true_count pad turns field2_next n1 n2 }
{
    if true_count {
        if pad {
            return turns;
        }
        return sending_of(turns, field2_next, n1, n2);
    }
    turns
}

impl Source {
    // The frame with so many turns, of which the count counts `counted`, and what it leaves.
    fn build(
        &self,
        packets: &[Slot; 16],
        turns: usize,
        counted: usize,
        triples: usize,
        carry: Carry,
    ) -> Made
        ensures { result ≡ built_by turns counted triples carry packets.now self.now }
    {
        let padding = self.padding;
        let count = count_of(
            self.padding,
            triples,
            counted,
            packets,
            self.queued,
            &self.slot,
            self.sent,
        );
        let empty = Frame::start(count);
        let start = Turns {
            field1: self.field1,
            field2: self.field2,
            field2_next: self.field2_next,
            frame: empty,
        };
        let t = start.take(self.pad, turns);
        let s = fill(
            packets,
            self.queued,
            &self.slot,
            self.sent,
            t.frame,
            count,
            padding,
        );
        let frame = s.frame;
        Made {
            frame,
            carry,
            field1: t.field1,
            field2: t.field2,
            field2_next: t.field2_next,
            slot: s.slot,
            sent: s.sent,
            next: s.next,
        }
    }

    /// The frame with its share of a rate, and what it leaves: worked out, and nothing changed.
    pub fn make(&self, packets: &[Slot; 16], share: Share) -> Made
        ensures { result ≡ built share.pairs share.triples share.carry packets.now self.now }
    {
        let n1 = self.field1.count;
        let n2 = self.field2.count;
        let turns = turns_of(self.pad, share.pairs, n1, n2);
        let counted = counted_of(self.true_count, self.pad, turns, self.field2_next, n1, n2);
        self.build(packets, turns, counted, share.triples, share.carry)
    }
}
