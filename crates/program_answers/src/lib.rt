// What answers say, as numbers: the number of a refusal, 0 for what is accepted, and the values that it carries.
#![tactic(auto)]

ghost use Rattle.std.specs.Prelude.{◌≡◌, [], ◌∷◌, ◌++◌, ◌≤◌, length, drop};
ghost use Rattle.caption.specs.Answers.{said_refusal, said};
ghost use Rattle.program_answers.specs.Telling.{told_by};

use caption::Refusal;

/// What an answer says: its number, and the first `count` of three values; the others are 0.
#[derive(Clone, Copy, Debug, PartialEq, Eq)]
pub struct Numbers {
    pub number: u64,
    pub count: usize,
    pub values: [usize; 3],
}

// Lays values into the first places.
fn put_front(places: &mut [usize], values: &[usize])
    requires { length values.now ≤ length places.old }
    ensures { places.new ≡ values.now ++ drop (length values.now) places.old }
{
    places[..values.len()].copy_from_slice(values);
}

// An answer with these values.
fn telling(number: u64, values: &[usize]) -> Numbers
    requires { length values.now ≤ 3 }
    ensures { result ≡ told_by (record { number = number; values = values.now }) }
{
    let mut three = [0usize; 3];
    put_front(&mut three, values);
    Numbers {
        number,
        count: values.len(),
        values: three,
    }
}

/// What a refusal says.
pub fn tell_refusal(why: Refusal) -> Numbers
    ensures { result ≡ told_by (said_refusal why) }
{
    match why {
        Refusal::Cea608AfterCea708 { byte_pos } => telling(2, &[byte_pos]),
        Refusal::WouldOverflow(over) => telling(3, &[over]),
        Refusal::ReadOnly => telling(4, &[]),
        Refusal::EmptyService => telling(5, &[]),
        Refusal::BadNumber => telling(6, &[]),
        Refusal::BadRun => telling(7, &[]),
        Refusal::BadRate => telling(8, &[]),
        Refusal::OutShort { needed } => telling(9, &[needed]),
        Refusal::Full => telling(10, &[]),
        Refusal::BadValue => telling(11, &[]),
        Refusal::FrameLengthWrong { expected, actual } => telling(12, &[expected, actual]),
        Refusal::PacketLengthWrong {
            expected,
            actual,
            offset,
        } => telling(13, &[expected, actual, offset]),
        Refusal::BlockHeaderShort {
            expected,
            actual,
            offset,
        } => telling(14, &[expected, actual, offset]),
        Refusal::BlockBodyShort {
            expected,
            actual,
            offset,
        } => telling(15, &[expected, actual, offset]),
        Refusal::BadMark => telling(16, &[]),
        Refusal::BadSection => telling(17, &[]),
        Refusal::BadSum => telling(18, &[]),
        Refusal::CountersDiffer => telling(19, &[]),
        Refusal::NotNewer => telling(20, &[]),
        Refusal::UnknownLength => telling(21, &[]),
        Refusal::CodeCutShort => telling(22, &[]),
        Refusal::BadCover => telling(23, &[]),
        Refusal::OutOfOrder => telling(24, &[]),
        Refusal::RunSplit => telling(25, &[]),
        Refusal::OverLimit => telling(26, &[]),
    }
}

/// What an answer says that only accepts or refuses.
pub fn tell_done(answer: Result<(), Refusal>) -> Numbers
    ensures { result ≡ told_by (said (λ _. []) answer) }
{
    match answer {
        Ok(()) => telling(0, &[]),
        Err(why) => tell_refusal(why),
    }
}

/// What an answer says that gives a number.
pub fn tell_count(answer: Result<usize, Refusal>) -> Numbers
    ensures { result ≡ told_by (said (λ n. n ∷ []) answer) }
{
    match answer {
        Ok(n) => telling(0, &[n]),
        Err(why) => tell_refusal(why),
    }
}
