// The lines that the programs print and their pieces, laid into a lent buffer from a place on and as far as there is room; each function
// answers the place behind what it laid.
#![tactic(auto)]

ghost use Rattle.std.specs.Prelude.{◌≤◌, [], ◌∷◌, ◌++◌};
ghost use Rattle.caption.specs.Answers.{said, said_refusal};
ghost use Rattle.caption.specs.Pairs.{cea608_of};
ghost use Rattle.program_text.specs.Laid.{Laid};
ghost use Rattle.program_text.specs.Text.{run, decimal, hex};
ghost use Rattle.program_answers.specs.Telling.{said_by};
ghost use Rattle.program_lines.specs.Lines.{value_text, values_text, run_text, block_text, number_text, answer_text, pair_text, packet_text, frame_line, block_line, end_line, stopped_line};

use caption::{Cea608, Refusal};
use program_answers::{Numbers, tell_count, tell_done, tell_refusal};
use program_text::{put_byte, put_decimal, put_hex, put_hex_byte, put_newline, put_word};

/// A number, after a space.
pub fn put_value(out: &mut [u8], at: usize, n: u64) -> usize
    ensures { Laid (value_text n) out.old at result out.new }
{
    let p = put_byte(out, at, b' ');
    put_decimal(out, p, n)
}

/// Several numbers, each after a space.
pub fn put_numbers(out: &mut [u8], at: usize, numbers: &[usize]) -> usize
    ensures { Laid (values_text numbers.now) out.old at result out.new }
{
    let mut p = at.min(out.len());
    for &n in numbers {
        p = put_value(out, p, n as u64);
    }
    p
}

// Bytes in hex, `-` for none.
fn put_hex_or_dash(out: &mut [u8], at: usize, bytes: &[u8]) -> usize
    ensures { Laid (run bytes.now) out.old at result out.new }
{
    if bytes.len() == 0 {
        return put_byte(out, at, b'-');
    }
    put_hex(out, at, bytes)
}

/// The same, after a space.
pub fn put_run(out: &mut [u8], at: usize, bytes: &[u8]) -> usize
    ensures { Laid (run_text bytes.now) out.old at result out.new }
{
    let p = put_byte(out, at, b' ');
    put_hex_or_dash(out, p, bytes)
}

/// A block, after a space: its number, a colon and its payload.
pub fn put_block(out: &mut [u8], at: usize, number: u8, payload: &[u8]) -> usize
    ensures { Laid (block_text number payload.now) out.old at result out.new }
{
    let p = put_value(out, at, number as u64);
    let q = put_byte(out, p, b':');
    put_hex_or_dash(out, q, payload)
}

// A word, and a number behind it.
fn put_numbered(out: &mut [u8], at: usize, word: &[u8], n: u64) -> usize
    ensures { Laid (word.now ++ decimal n) out.old at result out.new }
{
    let p = put_word(out, at, word);
    put_decimal(out, p, n)
}

// Whether an answer accepts: `ok`, or `refused` and its number.
fn put_number(out: &mut [u8], at: usize, number: u64) -> usize
    ensures { Laid (number_text number) out.old at result out.new }
{
    if number == 0 {
        return put_word(out, at, b"ok");
    }
    put_numbered(out, at, b"refused ", number)
}

// An answer: `ok` or its number as a refusal, and its values.
fn put_told(out: &mut [u8], at: usize, told: Numbers) -> usize
    requires { told.count ≤ 3 }
    ensures { Laid (answer_text (said_by told)) out.old at result out.new }
{
    let p = put_number(out, at, told.number);
    let values = &told.values[..];
    put_numbers(out, p, &values[..told.count])
}

/// A refusal: the word, its number and the values that it carries.
pub fn put_refusal(out: &mut [u8], at: usize, why: Refusal) -> usize
    ensures { Laid (answer_text (said_refusal why)) out.old at result out.new }
{
    put_told(out, at, tell_refusal(why))
}

/// The answer of a call that only accepts or refuses.
pub fn put_done(out: &mut [u8], at: usize, answer: Result<(), Refusal>) -> usize
    ensures { Laid (answer_text (said (λ _. []) answer)) out.old at result out.new }
{
    put_told(out, at, tell_done(answer))
}

/// The answer of a call that gives a number.
pub fn put_count(out: &mut [u8], at: usize, answer: Result<usize, Refusal>) -> usize
    ensures { Laid (answer_text (said (λ n. n ∷ []) answer)) out.old at result out.new }
{
    put_told(out, at, tell_count(answer))
}

// A word, and the two bytes of a pair in hex.
fn put_field(out: &mut [u8], at: usize, word: &[u8], a: u8, b: u8) -> usize
    ensures { Laid (word.now ++ hex (a ∷ b ∷ [])) out.old at result out.new }
{
    let p = put_word(out, at, word);
    let q = put_hex_byte(out, p, a);
    put_hex_byte(out, q, b)
}

/// A pair: its field, and its bytes in hex.
pub fn put_pair(out: &mut [u8], at: usize, pair: Cea608) -> usize
    ensures { Laid (pair_text (cea608_of pair)) out.old at result out.new }
{
    match pair {
        Cea608::Field1(a, b) => put_field(out, at, b"field1 ", a, b),
        Cea608::Field2(a, b) => put_field(out, at, b"field2 ", a, b),
    }
}

/// A packet's sequence number.
pub fn put_packet(out: &mut [u8], at: usize, sequence: u8) -> usize
    ensures { Laid (packet_text sequence) out.old at result out.new }
{
    put_numbered(out, at, b"packet ", sequence as u64)
}

/// The line of a record's frame: the record's number, and what the frame was answered.
pub fn put_frame_line(out: &mut [u8], at: usize, number: u64, answer: Result<(), Refusal>) -> usize
    ensures { Laid (frame_line number (said (λ _. []) answer)) out.old at result out.new }
{
    let told = tell_done(answer);
    let p = put_numbered(out, at, b"frame ", number);
    if told.number == 0 {
        return put_word(out, p, b" ok\n");
    }
    let q = put_numbered(out, p, b" refused ", told.number);
    put_newline(out, q)
}

/// The line of a block of a packet.
pub fn put_block_line(out: &mut [u8], at: usize, number: u8, payload: &[u8]) -> usize
    ensures { Laid (block_line number payload.now) out.old at result out.new }
{
    let p = put_numbered(out, at, b"block ", number as u64);
    let q = put_byte(out, p, b' ');
    let s = put_hex(out, q, payload);
    put_newline(out, s)
}

/// The last line of input that is records to its end.
pub fn put_end_line(out: &mut [u8], at: usize, records: u64) -> usize
    ensures { Laid (end_line records) out.old at result out.new }
{
    let p = put_numbered(out, at, b"end ", records);
    put_newline(out, p)
}

/// The last line of input with a wrong mark or a short record, which begins at byte `start`.
pub fn put_stopped_line(out: &mut [u8], at: usize, start: u64) -> usize
    ensures { Laid (stopped_line start) out.old at result out.new }
{
    let p = put_numbered(out, at, b"stopped at byte ", start);
    put_newline(out, p)
}
