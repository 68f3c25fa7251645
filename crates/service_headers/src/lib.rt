// The header of a block, read and written.
#![tactic(auto)]

ghost use Rattle.std.specs.Prelude.{◌≡◌, ◌%◌, get_or, drop, cond, eqb, ltb};
ghost use Rattle.std.proofs.lemmas.List.Edits.{sets};
ghost use Rattle.caption.specs.Answers.{said_refusal};
ghost use Rattle.model.specs.Block.{top_number, header_length, short_at, written_header};
ghost use Rattle.service_headers.specs.Head.{header_of, length_for};

use caption::Refusal;

/// What the header of a block says: its number, where its payload starts and how long that is.
#[derive(Clone, Copy, Debug, PartialEq, Eq)]
pub struct Header {
    pub number: u8,
    pub start: usize,
    pub size: usize,
}

// How many bytes the header that begins with `h` has.
#[tactic(auto, using(crate::proofs::Heads::two_bytes, crate::proofs::Heads::one_byte, crate::proofs::Heads::bare_byte))]
fn header_length(h: u8) -> usize
    ensures { result ≡ header_length h }
{
    if h / 32 % 8 == 7 {
        if h % 32 != 0 {
            return 2;
        }
    }
    1
}

// The bytes from `at` on.
fn from(data: &[u8], at: usize) -> &[u8]
    ensures { result.now ≡ drop at «data».now }
{
    &data[at.min(data.len())..]
}

// The first two bytes; 0 for one that is not there.
fn first_two(data: &[u8]) -> (u8, u8)
    ensures { (result.0 ≡ get_or «data».now 0 0) × (result.1 ≡ get_or «data».now 1 0) }
{
    match data {
        [] => (0, 0),
        [h] => (*h, 0),
        [h, second, ..] => (*h, *second),
    }
}

// The number that a header of these two bytes says [B2] [B3].
fn number_by(h: u8, second: u8) -> u8
    ensures { result ≡ cond (eqb (header_length h) 2) (second % 64) (top_number h) }
{
    if header_length(h) == 2 {
        return second % 64;
    }
    h / 32 % 8
}

/// The header of the block that begins at `at`, if all of the block is there [B4].
pub fn header_at(data: &[u8], at: usize) -> Option<Header>
    ensures { result ≡ header_of (drop at «data».now) }
{
    let rest = from(data, at);
    let (h, second) = first_two(rest);
    let start = header_length(h);
    let size = (h % 32) as usize;
    if rest.len() < start + size {
        return None;
    }
    Some(Header {
        number: number_by(h, second),
        start,
        size,
    })
}

/// Why the block that begins at `at` is refused, if it is cut short there: its header, or the body
/// that this announces (14, 15) [B4].
pub fn short_at(data: &[u8], at: usize) -> Refusal
    ensures { said_refusal result ≡ short_at at (drop at «data».now) }
{
    let rest = from(data, at);
    let (h, _) = first_two(rest);
    let start = header_length(h);
    let actual = rest.len();
    if actual < start {
        return Refusal::BlockHeaderShort {
            expected: start,
            actual,
            offset: at,
        };
    }
    Refusal::BlockBodyShort {
        expected: start + (h % 32) as usize,
        actual,
        offset: at,
    }
}

/// The length of a block with a payload of `size` bytes, whichever they are.
pub fn block_length(number: u8, size: u8) -> usize
    ensures { result ≡ length_for number size }
{
    if size == 0 {
        return 0;
    }
    if number < 7 {
        return 1 + size as usize;
    }
    2 + size as usize
}

/// Lays the header of a block into `out`, from `at` on, as far as there is room.
pub fn put_header(out: &mut [u8], at: usize, number: u8, size: u8)
    ensures { out.new ≡ sets out.old at (written_header number (size % 32)) }
{
    let low = size % 32;
    let n = out.len();
    if n <= at {
        return;
    }
    if number < 7 {
        out[at] = number * 32 + low;
        return;
    }
    out[at] = 224 + low;
    if at + 1 < n {
        out[at + 1] = number;
    }
}

/// How many bytes a header is written in.
pub fn written_header_length(number: u8) -> usize
    ensures { result ≡ cond (ltb number 7) 1 2 }
{
    if number < 7 {
        return 1;
    }
    2
}
