// The lines of answers to a script's operations, laid into a lent buffer from a place on and as far as there is room; each function answers the
// place behind what it laid. What a row of the table of operations is, stands in `specs/Rows.antt`.
#![tactic(auto)]

ghost use Rattle.std.specs.Prelude.{[], ◌∷◌};
ghost use Rattle.caption.specs.Answers.{said, said_refusal};
ghost use Rattle.program_text.specs.Laid.{Laid};
ghost use Rattle.program_text.specs.Text.{word};
ghost use Rattle.script_answers.specs.Script.{answer_line, lent_line, run_line};

use caption::Refusal;
use program_text::{put_newline, put_word};

/// An operation that there is not, or one with too few or too many argument bytes.
pub fn put_bad_line(out: &mut [u8], at: usize) -> usize
    ensures { Laid (word "bad\n") out.old at result out.new }
{
    put_word(out, at, b"bad\n")
}

/// An operation that is not refused, and gives no value.
pub fn put_ok_line(out: &mut [u8], at: usize) -> usize
    ensures { Laid (word "ok\n") out.old at result out.new }
{
    put_word(out, at, b"ok\n")
}

/// A call that only accepts or refuses.
pub fn put_done_line(out: &mut [u8], at: usize, answer: Result<(), Refusal>) -> usize
    ensures { Laid (answer_line (said (λ _. []) answer)) out.old at result out.new }
{
    let p = program_lines::put_done(out, at, answer);
    put_newline(out, p)
}

/// A call that wrote to a lent output: how much, or why not, and all of the output.
pub fn put_written_line(
    out: &mut [u8],
    at: usize,
    answer: Result<usize, Refusal>,
    lent: &[u8],
) -> usize
    ensures { Laid (lent_line (said (λ n. n ∷ []) answer) lent.now) out.old at result out.new }
{
    let p = program_lines::put_count(out, at, answer);
    let q = program_lines::put_run(out, p, lent);
    put_newline(out, q)
}

/// Several numbers asked of one value, which are refused together.
pub fn put_measures_line<const N: usize>(
    out: &mut [u8],
    at: usize,
    measured: Result<[usize; N], Refusal>,
) -> usize
    ensures { Laid (answer_line (said (λ ks. ks) measured.entry)) out.old at result out.new }
{
    match measured {
        Ok(numbers) => {
            let p = put_word(out, at, b"ok");
            let q = program_lines::put_numbers(out, p, &numbers);
            put_newline(out, q)
        }
        Err(why) => put_refusal_line(out, at, why),
    }
}

/// A refusal.
pub fn put_refusal_line(out: &mut [u8], at: usize, why: Refusal) -> usize
    ensures { Laid (answer_line (said_refusal why)) out.old at result out.new }
{
    let p = program_lines::put_refusal(out, at, why);
    put_newline(out, p)
}

/// Bytes that were handed back.
pub fn put_run_line(out: &mut [u8], at: usize, bytes: &[u8]) -> usize
    ensures { Laid (run_line bytes.now) out.old at result out.new }
{
    let p = put_word(out, at, b"ok");
    let q = program_lines::put_run(out, p, bytes);
    put_newline(out, q)
}
