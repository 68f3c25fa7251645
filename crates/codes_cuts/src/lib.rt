//! A payload cut into codes: the length of the code that begins at a byte, how many codes there are, and the code at a place as a part of the payload.
#![tactic(auto)]

ghost use Rattle.std.specs.Prelude.{◌≡◌, [], ◌<◌, length, get_or, drop};
ghost use Rattle.caption.specs.Answers.{outcome};
ghost use Rattle.model.specs.Said.{mapped};
ghost use Rattle.model.specs.Codes.{code_in, codes_of};
ghost use Rattle.codes_cuts.specs.Cuts.{how_many, cut_of, whole_of, Reached};

use caption::Refusal;
use codes_lengths::length_by;

// The byte behind which another tells the length of a code: EXT1 in the standard.
const EXT1: u8 = 0x10;

// What there is of a code of this length where `left` bytes are left: all of it, or not; a length of 0 is that of no code.
fn whole(length: usize, left: usize) -> Result<usize, Refusal>
    ensures { outcome result ≡ whole_of length left }
{
    if length == 0 {
        return Err(Refusal::UnknownLength);
    }
    if left < length {
        return Err(Refusal::CodeCutShort);
    }
    Ok(length)
}

/// How many bytes the code has that begins at `at` [K3]. Refused: `UnknownLength`, or `CodeCutShort`, also at the payload's end and behind it, where no
/// code begins.
#[tactic(auto, using(crate::proofs::Cuts::none_left, crate::proofs::Cuts::told_first, crate::proofs::Cuts::told_second, crate::proofs::Cuts::not_told))]
pub fn code_length_at(payload: &[u8], at: usize) -> Result<usize, Refusal>
    ensures { outcome result ≡ code_in (drop at payload.now) }
{
    let len = payload.len();
    if len <= at {
        return Err(Refusal::CodeCutShort);
    }
    let left = len - at;
    let first = payload[at];
    if first != EXT1 {
        return whole(length_by(false, first) as usize, left);
    }
    if left == 1 {
        return Err(Refusal::CodeCutShort);
    }
    whole(length_by(true, payload[at + 1]) as usize, left)
}

/// How many codes a payload has [K4]. Refused as `code_length_at` refuses the first that is none.
pub fn code_count(payload: &[u8]) -> Result<usize, Refusal>
    ensures { outcome result ≡ mapped how_many (codes_of payload.now) }
{
    let mut at: usize = 0;
    let mut count: usize = 0;
    while at < payload.len() {
        at += code_length_at(payload, at)?;
        count += 1;
    }
    Ok(count)
}

// The byte at which the code at a place begins.
fn start_of(payload: &[u8], place: usize) -> usize
    requires { place < length (cut_of payload.now) }
    ensures { Reached payload.now place result }
{
    let mut start: usize = 0;
    for _ in 0..place {
        let Ok(n) = code_length_at(payload, start) else {
            return start;
        };
        start += n;
    }
    start
}

/// The code at a place, as a part of the payload; an empty part where the payload is refused or has no code there [K4].
pub fn code_at(payload: &[u8], place: usize) -> &[u8]
    ensures { result.now ≡ get_or (cut_of payload.now) place [] }
{
    let Ok(count) = code_count(payload) else {
        return &payload[0..0];
    };
    if count <= place {
        return &payload[0..0];
    }
    let at = start_of(payload, place);
    let Ok(n) = code_length_at(payload, at) else {
        return &payload[0..0];
    };
    let end = at + n;
    &payload[at..end]
}
