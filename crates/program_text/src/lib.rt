// Text laid into a lent buffer from a place on, as far as there is room. Each function answers the place behind what it laid.
#![tactic(auto)]

ghost use Rattle.std.specs.Prelude.{◌≡◌, [], ◌∷◌, ◌<◌};
ghost use Rattle.program_text.specs.Laid.{Laid};
ghost use Rattle.program_text.specs.Text.{word, digit, hex_byte, hex, decimal};

use basics::put_bytes;

/// Lays one byte.
pub fn put_byte(out: &mut [u8], at: usize, byte: u8) -> usize
    ensures { Laid (byte ∷ []) out.old at result out.new }
{
    let room = out.len();
    if room <= at {
        return room;
    }
    out[at] = byte;
    at + 1
}

/// Lays a line's end.
pub fn put_newline(out: &mut [u8], at: usize) -> usize
    ensures { Laid (word "\n") out.old at result out.new }
{
    put_byte(out, at, b'\n')
}

/// Lays a word: its bytes.
pub fn put_word(out: &mut [u8], at: usize, word: &[u8]) -> usize
    ensures { Laid word.now out.old at result out.new }
{
    put_bytes(out, at, word);
    let room = out.len();
    if room <= at {
        return room;
    }
    at + word.len().min(room - at)
}

// The digit of a number below 16.
#[tactic(auto, unfolding(crate::specs::Text::digit))]
fn digit_of(d: u8) -> u8
    requires { d < 16 }
    ensures { result ≡ digit d }
{
    if d < 10 { b'0' + d } else { b'A' + (d - 10) }
}

/// Lays a byte as two digits, in capitals [C2].
pub fn put_hex_byte(out: &mut [u8], at: usize, byte: u8) -> usize
    ensures { Laid (hex_byte byte) out.old at result out.new }
{
    let low = put_byte(out, at, digit_of(byte / 16));
    put_byte(out, low, digit_of(byte % 16))
}

/// Lays bytes, each as two digits.
pub fn put_hex(out: &mut [u8], at: usize, bytes: &[u8]) -> usize
    ensures { Laid (hex bytes.now) out.old at result out.new }
{
    let mut end = at.min(out.len());
    for &byte in bytes {
        end = put_hex_byte(out, end, byte);
    }
    end
}

/// Lays a number in decimal: the digits of its tenth, if it has one, and the last.
pub fn put_decimal(out: &mut [u8], at: usize, n: u64) -> usize
    ensures { Laid (decimal n) out.old at result out.new }
{
    if n < 10 {
        return put_byte(out, at, digit_of(n as u8));
    }
    let end = put_decimal(out, at, n / 10);
    put_byte(out, end, digit_of((n % 10) as u8))
}
