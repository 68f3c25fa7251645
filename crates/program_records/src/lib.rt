// Records found in a buffer, and parts of one.
#![tactic(auto)]

ghost use Rattle.std.specs.Prelude.{◌≡◌, [], ◌∷◌, get_or, take, drop};
ghost use Rattle.model.specs.Services.{among};
ghost use Rattle.program_records.specs.Reading.{can_be, found_in, missing, highest_first};
ghost use Rattle.program_records.specs.Moved.{Moved, between};

/// What stands in a buffer from a place on.
#[derive(Clone, Copy, Debug, PartialEq, Eq)]
pub enum Found {
    /// A whole record: its `len` bytes begin at `start`, and the next record at `next`.
    Record {
        start: usize,
        len: usize,
        next: usize,
    },
    /// No whole record, and nothing wrong as far as the bytes go; the input goes on.
    More,
    /// No record: the bytes that are there cannot be the mark.
    WrongMark,
    /// A record of which bytes are missing, at the input's end.
    Short,
    /// Nothing, at the input's end.
    End,
}

// Whether a byte is one of `kinds`.
fn is_among(kinds: &[u8], byte: u8) -> bool
    ensures { result ≡ among kinds.now byte }
{
    kinds.contains(&byte)
}

// Whether bytes, as far as they go, are a mark: `first`, and then one of `kinds`.
fn can_be_mark(bytes: &[u8], first: u8, kinds: &[u8]) -> bool
    ensures { result ≡ can_be ((first ∷ []) ∷ kinds.now ∷ []) bytes.now }
{
    match bytes {
        [] => true,
        [one] => first == *one,
        [one, two, ..] => first == *one && is_among(kinds, *two),
    }
}

// What is found where no whole record is there: at the end of the input `at_end`.
fn missing(ended: bool, at_end: Found) -> Found
    ensures { result ≡ missing ended at_end }
{
    if ended { at_end } else { Found::More }
}

/// What stands in `bytes` from `at` on, where a record's mark is `first` and then one of `kinds`;
/// `ended` says that no more bytes follow these.
pub fn next_record(bytes: &[u8], at: usize, ended: bool, first: u8, kinds: &[u8]) -> Found
    ensures { result ≡ found_in ((first ∷ []) ∷ kinds.now ∷ []) ended at (drop at bytes.now) }
{
    let rest = behind(bytes, at);
    if rest.is_empty() {
        return missing(ended, Found::End);
    }
    if !can_be_mark(rest, first, kinds) {
        return Found::WrongMark;
    }
    let len = usize::from(byte_at(rest, 2));
    if rest.len() < 3 + len {
        return missing(ended, Found::Short);
    }
    Found::Record {
        start: at + 3,
        len,
        next: at + (3 + len),
    }
}

/// The bytes from `at` on; none past the end.
pub fn behind(bytes: &[u8], at: usize) -> &[u8]
    ensures { result.now ≡ drop at bytes.now }
{
    &bytes[at.min(bytes.len())..]
}

/// The `len` bytes from `start` on, as far as they are there.
pub fn part(bytes: &[u8], start: usize, len: usize) -> &[u8]
    ensures { result.now ≡ take len (drop start bytes.now) }
{
    let rest = behind(bytes, start);
    &rest[..len.min(rest.len())]
}

/// The byte at `at`, 0 past the end.
pub fn byte_at(bytes: &[u8], at: usize) -> u8
    ensures { result ≡ get_or bytes.now at 0 }
{
    bytes.get(at).copied().unwrap_or(0)
}

/// The number that the four bytes from `at` on make, the highest first; bytes past the end count as 0.
pub fn number_at(bytes: &[u8], at: usize) -> u32
    ensures { result ≡ highest_first (drop at bytes.now) }
{
    let four = part(bytes, at, 4);
    u32::from_be_bytes([
        byte_at(four, 0),
        byte_at(four, 1),
        byte_at(four, 2),
        byte_at(four, 3),
    ])
}

/// Moves the bytes from `from` to `to`, as far as they are there, to the front; answers how many
/// they are.
pub fn move_to_front(bytes: &mut [u8], from: usize, to: usize) -> usize
    ensures { Moved (between from to bytes.old) bytes.old result bytes.new }
{
    let end = to.min(bytes.len());
    let start = from.min(end);
    bytes.copy_within(start..end, 0);
    end - start
}
