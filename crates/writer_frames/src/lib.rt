// A frame under construction: its first bytes, triples of pairs and packets, padding, and the copy into a lent output.
#![tactic(auto)]

ghost use Rattle.std.specs.Prelude.{◌≡◌, cond, ◌&&◌, [], ◌∷◌, ◌+◌, ◌*◌, ◌-◌, ◌%◌, ◌≤◌, leb, get_or};
ghost use Rattle.std.proofs.lemmas.List.Edits.{sets};
ghost use Rattle.model.specs.Frame.{flat, most_frame};
ghost use Rattle.writer_frames.specs.Frame.{headed, appended, mark, triples_at, fillers, fits, carries, emitted};

use basics::{MOST_FRAME, MOST_PACKET, MOST_TRIPLES, put_bytes};

/// A frame: its first `len` bytes are there.
#[derive(Clone, Copy)]
pub struct Frame {
    pub bytes: [u8; 95],
    pub len: usize,
}

impl Frame {
    /// A frame of its first two bytes; the count has five bits [W3].
    pub fn start(count: usize) -> Frame
        ensures { result ≡ headed (count % 32) }
    {
        let mut bytes = [0u8; 95];
        bytes[0] = (0xC0 + count % 32) as u8;
        bytes[1] = 0xFF;
        Frame { bytes, len: 2 }
    }

    /// Whether `n` more triples fit.
    pub fn has_room(&self, n: usize) -> bool
        ensures { result ≡ fits self.now n }
    {
        if MOST_TRIPLES < n {
            return false;
        }
        self.len <= MOST_FRAME - 3 * n
    }

    /// Lays `n` triples of a packet from its byte `at` on, if they fit and are there [W7].
    pub fn carry(&mut self, packet: &[u8; 128], at: usize, n: usize)
        ensures { self.new ≡ cond (fits self.old n && carries at n) (appended self.old (flat (triples_at n at packet.now))) self.old }
    {
        if !self.has_room(n) {
            return;
        }
        if MOST_PACKET < at {
            return;
        }
        if MOST_PACKET - at < 2 * n {
            return;
        }
        put_triples(&mut self.bytes, self.len, packet, at, n);
        self.len += 3 * n;
    }

    /// Lays `n` triples of padding, if they fit [W8].
    pub fn pad(&mut self, n: usize)
        ensures { self.new ≡ cond (fits self.old n) (appended self.old (flat (fillers n))) self.old }
    {
        if !self.has_room(n) {
            return;
        }
        put_fillers(&mut self.bytes, self.len, n);
        self.len += 3 * n;
    }

    /// Copies the frame's bytes to the front of what is lent, if they fit [A5].
    pub fn emit(&self, out: &mut [u8])
        ensures { out.new ≡ emitted self.now out.old }
    {
        if MOST_FRAME < self.len {
            return;
        }
        if out.len() < self.len {
            return;
        }
        put_bytes(out, 0, &self.bytes[0..self.len]);
    }
}

/// Puts a triple into the bytes of a frame, from `at` on, if it fits.
pub fn put(bytes: &mut [u8; 95], at: usize, a: u8, b: u8, c: u8)
    ensures { bytes.new ≡ cond (leb at (most_frame - 3)) (sets bytes.old at (a ∷ b ∷ c ∷ [])) bytes.old }
{
    if MOST_FRAME - 3 < at {
        return;
    }
    bytes[at] = a;
    bytes[at + 1] = b;
    bytes[at + 2] = c;
}

// One triple of a packet: 0xFF is the first, 0xFE any other.
fn put_triple(bytes: &mut [u8; 95], to: usize, from: &[u8; 128], at: usize)
    requires to_bound { to + 3 ≤ 95 }
    requires at_bound { at + 2 ≤ 128 }
    ensures { bytes.new ≡ sets bytes.old to (mark at ∷ get_or from.now at 0 ∷ get_or from.now (at + 1) 0 ∷ []) }
{
    bytes[to] = if at == 0 { 0xFF } else { 0xFE };
    bytes[to + 1] = from[at];
    bytes[to + 2] = from[at + 1];
}

// `n` triples of a packet, with its bytes from `at` on.
fn put_triples(bytes: &mut [u8; 95], len: usize, packet: &[u8; 128], at: usize, n: usize)
    requires to_bound { len + 3 * n ≤ 95 }
    requires at_bound { at + 2 * n ≤ 128 }
    ensures { bytes.new ≡ sets bytes.old len (flat (triples_at n at packet.now)) }
{
    let mut i: usize = 0;
    while i < n {
        put_triple(bytes, len + 3 * i, packet, at + 2 * i);
        i += 1;
    }
}

// `n` triples of padding.
fn put_fillers(bytes: &mut [u8; 95], len: usize, n: usize)
    requires { len + 3 * n ≤ 95 }
    ensures { bytes.new ≡ sets bytes.old len (flat (fillers n)) }
{
    let end = len + 3 * n;
    let mut at = len;
    while at < end {
        bytes[at] = 0xFA;
        bytes[at + 1] = 0;
        bytes[at + 2] = 0;
        at += 3;
    }
}
