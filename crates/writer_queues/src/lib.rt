// The queue of a field's pairs: pushed to, counted down as pairs leave, measured.
#![tactic(auto)]

ghost use Rattle.std.specs.Prelude.{◌≡◌, min, leb, length};
ghost use Rattle.model.specs.Said.{mapped};
ghost use Rattle.model.specs.Frame.{pair};
ghost use Rattle.model.specs.Mux.{is_null, most_queued};
ghost use Rattle.model.specs.Duration.{pairs_duration};
ghost use Rattle.caption.specs.Answers.{outcome};
ghost use Rattle.writer_queues.specs.Queue.{queue_over, down_to, push_outcome};

use basics::{MOST_QUEUED, put_bytes};
use caption::Refusal;

/// A field's queue: 64 places of two bytes, of which `count` are taken. The first leaves next.
#[derive(Clone, Copy)]
pub struct PairQueue {
    pub bytes: [u8; 128],
    pub count: usize,
}

impl PairQueue {
    /// Whether `count` is within its limit.
    pub fn is_valid(&self) -> bool
        ensures value { result ≡ leb self.now.count most_queued }
        ensures places { length self.now.bytes ≡ 128 }
    {
        self.count <= MOST_QUEUED
    }

    /// Pushes a pair and hands the queue back; 0x80 0x80 is taken and not kept, on a full queue too
    /// [W11]. 10 where no place is free, 11 where `count` breaks its limit.
    pub fn push(mut self, a: u8, b: u8) -> Result<PairQueue, Refusal>
        ensures { outcome result ≡ mapped (queue_over self) (push_outcome self a b) }
    {
        let count = self.count;
        if MOST_QUEUED < count {
            return Err(Refusal::BadValue);
        }
        if is_null(a, b) {
            return Ok(self);
        }
        if count == MOST_QUEUED {
            return Err(Refusal::Full);
        }
        self.bytes[2 * count] = a;
        self.bytes[2 * count + 1] = b;
        self.count = count + 1;
        Ok(self)
    }

    /// How long the pairs take to leave, at most as many as there are places: 1001/60000 of a second each, in microseconds, upward.
    pub fn duration(self) -> u64
        ensures { result ≡ pairs_duration (min self.count most_queued) }
    {
        (self.count.min(MOST_QUEUED) as u64 * 1_001_000_000 + 59_999) / 60_000
    }

    /// The last `left` pairs, in the places from the first on; what stands behind them stays. Nothing is done where there are fewer, or more
    /// than there are places.
    pub fn down_to(self, left: usize) -> PairQueue
        ensures { result ≡ down_to self left }
    {
        let count = self.count;
        if MOST_QUEUED < count {
            return self;
        }
        if count < left {
            return self;
        }
        let from = self.bytes;
        let mut bytes = self.bytes;
        put_bytes(&mut bytes, 0, &from[2 * (count - left)..2 * count]);
        PairQueue { bytes, count: left }
    }
}

// Whether a pair is 0x80,0x80: nothing to send.
fn is_null(a: u8, b: u8) -> bool
    ensures { result ≡ is_null (pair a b) }
{
    if a == 0x80 {
        return b == 0x80;
    }
    false
}
