// What every part shares: the numbers of the rule book, a sum cut into steps, and bytes laid into a buffer.
#![tactic(auto)]

ghost use Rattle.std.specs.Prelude.{◌≡◌, cond, ◌+◌, ◌*◌, ◌≤◌, leb};
ghost use Rattle.std.proofs.lemmas.List.Edits.{sets};
ghost use Rattle.basics.specs.Cut.{cut_of};

// The most bytes of a packet.
pub const MOST_PACKET: usize = 128;

// The most blocks of a packet.
pub const MOST_BLOCKS: usize = 63;

// The most payload bytes of a block.
pub const MOST_PAYLOAD: usize = 31;

// The highest number of a service.
pub const MOST_NUMBER: u8 = 63;

// The most bytes of a frame.
pub const MOST_FRAME: usize = 95;

// The most triples of a frame.
pub const MOST_TRIPLES: usize = 31;

// The pairs of a field in a second, which are 960 bits.
pub const PAIRS_A_SECOND: usize = 60;

// The triples in a second, whose two bytes each are 9600 bits.
pub const TRIPLES_A_SECOND: usize = 600;

// The most packets that wait to be drawn.
pub const MOST_WAITING: usize = 32;

// The most packets that wait to be sent, beside the one being sent.
pub const MOST_PACKETS: usize = 16;

// The most pairs of a field that wait to be sent.
pub const MOST_QUEUED: usize = 64;

// A sum in steps: how many whole ones there are, and what is left over.
#[derive(Clone, Copy)]
pub struct Steps {
    pub count: usize,
    pub rest: usize,
}

// Cuts a sum into steps, 31 of them at the most, without a division: sixteen are taken off if there are so many, then eight, four, two and one.
pub fn cut(sum: usize, step: u32) -> Steps
    ensures { result ≡ cut_of sum step }
{
    let whole = Steps {
        count: 0,
        rest: sum,
    };
    let by16 = whole.take(16, step);
    let by8 = by16.take(8, step);
    let by4 = by8.take(4, step);
    let by2 = by4.take(2, step);
    by2.take(1, step)
}

impl Steps {
    // Takes `n` more steps off the rest, if there are so many; nothing is lost.
    fn take(self, n: usize, step: u32) -> Steps
        requires { (n ≤ 16) × (self.count ≤ 31) }
        ensures { (result.count ≡ self.count + cond (leb (n * step) self.rest) n 0) × (result.rest + result.count * step ≡ self.rest + self.count * step) }
    {
        let off = n * step as usize;
        if self.rest < off {
            return self;
        }
        Steps {
            count: self.count + n,
            rest: self.rest - off,
        }
    }
}

// Lays `src` into `dst`, from `at` on, as far as there is room.
pub fn put_bytes(dst: &mut [u8], at: usize, src: &[u8])
    ensures { dst.new ≡ sets dst.old at src.now }
{
    let n = dst.len();
    if n <= at {
        return;
    }
    let count = src.len().min(n - at);
    dst[at..at + count].copy_from_slice(&src[..count]);
}
