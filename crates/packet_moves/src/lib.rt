// How the readers go over the bytes of a packet: the size that its header says, how far they move on, where they are through, and the test whether bytes
// read.
#![tactic(auto)]

ghost use Rattle.std.specs.Prelude.{◌≡◌, ℕ, ◌<◌, length, take, drop};
ghost use Rattle.model.specs.Said.{is_given};
ghost use Rattle.model.specs.Packet.{packet_size, plainly, tidily, is_null_header};
ghost use Rattle.model.specs.Packet as model;
ghost use Rattle.packet_moves.specs.Moves.{Goes, blocks_at, through_at, plain_step, tidy_step};
ghost use Rattle.packet_moves.specs.Goes.{plain_goes, tidy_goes};

use service_headers::Header;

// How far the plain reader moves past a null header, whatever its size.
const NULL_MOVE: usize = 1;

/// How many bytes a packet whose first byte is `h` has in all [P2].
pub fn packet_size(h: u8) -> usize
    ensures { result ≡ packet_size h }
{
    let n = (h % 64) as usize;
    if n == 0 {
        return 128;
    }
    2 * n
}

/// How a reader goes over the bytes of a packet.
pub trait Way {
    // The way in the rules.
    ghost way: { model.Way };

    // How far it moves on, by the number, the start and the size that a header says.
    ghost step: { ℕ → ℕ → ℕ → ℕ };

    /// Whether the reader is through with the bytes at `at`: none is left, or the rest is fill.
    fn through(data: &[u8], at: usize) -> bool
        ensures { result ≡ through_at way «data».now at };

    /// How far the reader moves on past a block whose header says this.
    fn moved(number: u8, start: u8, size: u8) -> usize
        ensures { result ≡ step number start size };

    /// Whether `actual` bytes are a wrong length where the header says `size`.
    fn is_wrong(size: usize, actual: usize) -> bool
        ensures { result ≡ way.wrong size actual };

    ghost goes: { Goes way step };
}

/// The crate's reader: it stops nowhere [P4], moves on by what a block is written in [P5], and
/// reads bytes that are fewer than the header says [P3].
pub struct Plain;

/// The tidy reader: a null header ends the blocks [T2], it moves on by all that a header announces
/// [T3], and the bytes are as many as the header says [T1].
pub struct Tidy;

impl Way for Plain {
    ghost way = { plainly };

    ghost step = { plain_step };

    ghost goes = { plain_goes };

    fn through(data: &[u8], at: usize) -> bool {
        data.len() <= at
    }

    fn moved(number: u8, start: u8, size: u8) -> usize {
        let payload = usize::from(size);
        if number == 0 {
            return NULL_MOVE;
        }
        if size == 0 {
            return 1;
        }
        if number < 7 {
            return 1 + payload;
        }
        2 + payload
    }

    fn is_wrong(size: usize, actual: usize) -> bool {
        size < actual
    }
}

impl Way for Tidy {
    ghost way = { tidily };

    ghost step = { tidy_step };

    ghost goes = { tidy_goes };

    fn through(data: &[u8], at: usize) -> bool {
        Plain::through(data, at) || null_at(data, at)
    }

    fn moved(number: u8, start: u8, size: u8) -> usize {
        usize::from(start) + usize::from(size)
    }

    fn is_wrong(size: usize, actual: usize) -> bool {
        size != actual
    }
}

/// The first `len` bytes, as far as they are there.
pub fn front(bytes: &[u8; 128], len: usize) -> &[u8]
    ensures { result.now ≡ take len bytes.now }
{
    let all = &bytes[..];
    &all[..len.min(all.len())]
}

/// Whether the first `len` bytes read as a packet; at most 128 are there [F10].
pub fn reads_in(bytes: &[u8; 128], len: usize) -> bool
    ensures { result ≡ model.reads (take len bytes.now) }
{
    let data = front(bytes, len);
    if data.is_empty() {
        return false;
    }
    if Plain::is_wrong(packet_size(data[0]), data.len()) {
        return false;
    }
    reads_from(data, 1)
}

// Whether the blocks of some bytes, from `at` on, read plainly.
fn reads_from(data: &[u8], at: usize) -> bool
    ensures { result ≡ is_given (blocks_at plainly «data».now at) }
{
    if Plain::through(data, at) {
        return true;
    }
    let Some(
        Header {
            number,
            start,
            size,
        },
    ) = service_headers::header_at(data, at)
    else {
        return false;
    };
    reads_from(data, at + Plain::moved(number, start as u8, size as u8))
}

// Whether a null header begins at `at`: its own bytes have to be there, one or two, but none of
// those that it announces [T2].
fn null_at(data: &[u8], at: usize) -> bool
    requires { at < length «data».now }
    ensures { result ≡ is_null_header (drop at «data».now) }
{
    let h = data[at];
    if h / 32 % 8 != 7 {
        return h / 32 % 8 == 0;
    }
    if h % 32 == 0 {
        return false;
    }
    if at + 1 == data.len() {
        return false;
    }
    data[at + 1] % 64 == 0
}
