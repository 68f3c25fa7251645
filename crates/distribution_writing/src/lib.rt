//! A frame laid out as a distribution packet in a lent output: its head, the frame's triples, its footer, and the byte that closes the sum.
#![tactic(auto)]

ghost use Rattle.std.specs.Prelude.{◌≡◌, true, ◌+◌, ◌≤◌, ◌<◌, length, OnErr};
ghost use Rattle.std.proofs.lemmas.List.Edits.{sets};
ghost use Rattle.caption.specs.Answers.{outcome};
ghost use Rattle.model.specs.Said.{mapped, after};
ghost use Rattle.model.specs.Distribution.{is_coded, is_whole, distribute};
ghost use Rattle.distribution_writing.specs.Laid.{first_nine, sections_of, packet_in};

use basics::put_bytes;
use caption::Refusal;
use distribution_numbers::{closing_byte, is_coded, sum_of};

// Whether a frame has as many triples as its first byte says.
#[tactic(auto, unfolding(model::specs::Distribution::is_whole))]
fn is_whole(frame: &[u8]) -> bool
    ensures { result ≡ is_whole frame.now }
{
    let n = frame.len();
    n != 0 && n == 3 * (frame[0] % 32) as usize + 2
}

// The head of a packet, and the first two bytes of its captions. The counter's higher byte stands first.
fn head_of(counter: u16, code: u8, count: u8) -> [u8; 9]
    requires code_bound { code ≤ 8 }
    requires count_bound { count < 32 }
    ensures { result ≡ first_nine counter code count }
{
    let [high, low] = counter.to_be_bytes();
    [
        0x96,
        0x69,
        13 + 3 * count,
        16 * code + 15,
        0x43,
        high,
        low,
        0x72,
        0xE0 + count,
    ]
}

// Lays the sections of a frame's packet; the footer repeats the counter of the head.
fn lay_sections(counter: u16, code: u8, frame: &[u8], out: &mut [u8])
    requires code_value { is_coded code ≡ true }
    requires frame_value { is_whole frame.now ≡ true }
    ensures { out.new ≡ sets out.old 0 (sections_of counter code frame.now) }
{
    let n = frame.len();
    let head = head_of(counter, code, frame[0] % 32);
    let footer = [0x74, head[5], head[6]];
    put_bytes(out, 0, &head);
    put_bytes(out, 9, &frame[2..n]);
    put_bytes(out, n + 7, &footer);
}

// Lays a frame's packet: its sections, and the byte that closes their sum.
fn lay_out(counter: u16, code: u8, frame: &[u8], out: &mut [u8])
    requires code_value { is_coded code ≡ true }
    requires frame_value { is_whole frame.now ≡ true }
    requires frame_in_bounds { length frame.now + 11 ≤ length out.old }
    ensures { out.new ≡ packet_in counter code frame.now out.old }
{
    lay_sections(counter, code, frame, out);
    let end = frame.len() + 10;
    let sum = sum_of(&out[..end]);
    out[end] = closing_byte(sum);
}

/// Writes a frame as a packet with this counter, at the rate of a code, and answers how many bytes it has [L3]. Refused: `BadSection` where the frame
/// is not whole or no rate has the code, then `OutShort`.
pub fn write_packet(counter: u16, code: u8, frame: &[u8], out: &mut [u8]) -> Result<usize, Refusal>
    ensures answer { outcome result ≡ mapped (λ x. length x.bytes) (distribute counter code frame.now out.old) }
    ensures output { out.new ≡ after out.old (mapped (λ x. x.out) (distribute counter code frame.now out.old)) }
    ensures kept { OnErr result (out.new ≡ out.old) }
{
    if !is_whole(frame) {
        return Err(Refusal::BadSection);
    }
    if !is_coded(code) {
        return Err(Refusal::BadSection);
    }
    let needed = frame.len() + 11;
    if out.len() < needed {
        return Err(Refusal::OutShort { needed });
    }
    lay_out(counter, code, frame, out);
    Ok(needed)
}
