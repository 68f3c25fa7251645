// A program that reads records to the end of its input: what is ahead of a place, its last line, and what it keeps for its next read. What it tells
// of the records is in `specs/Walk.antt`.
#![tactic(auto)]

ghost use Rattle.std.specs.Prelude.{◌≡◌, true, false, ℕ, ◌+◌, ◌^◌, ◌<◌, ◌≤◌, List, [], ◌∷◌, ◌++◌, length, take, drop, IfOk, OnErr};
ghost use Rattle.std.specs.Io.KnownBytes.{Consumes, Appends};
ghost use Rattle.program_records.specs.Moved.{Moved, between};
ghost use Rattle.program_text.specs.Laid.{Laid};
ghost use Rattle.program_streams.specs.Ends.{left_at, goes_on, last_line};
ghost use Rattle.program_streams.specs.Ahead.{past_record, waiting, ahead_of, reached, with_laid, front_of, held_at, nothing_read};
ghost use Rattle.program_streams.specs.Walk.{Told, kind, body, before, told, told_from, left_to_tell, done_at, Follow};
ghost use Rattle.program_streams.specs.Driven.{mark_of, HandedOut, TakenIn, Turned, Driven, Broken};

use program_records::{Found, behind, byte_at, part};
use std::io;
use std::io::{Read, Write};

// The last line has at most 64 bytes.
const LAST_LINE: usize = 64;

/// What a program tells of its records, and what it has from one to the next.
pub trait Teller: Copy {
    // Which bytes stand second in a record's mark, behind CC [C1].
    ghost kinds: { List ℕ };

    // The room that it wants for a record.
    ghost ROOM: { ℕ };

    // The room that there is has a place for that, and for the last line.
    ghost fits: { ROOM + 64 ≤ 65536 };

    // What it tells of a record, by its number, its kind and its bytes, and what it has then.
    ghost telling: { ℕ → Self → ℕ → List ℕ → Told Self };

    const ROOM: usize;

    fn kinds(&self) -> &[u8]
        ensures { result.now ≡ kinds };

    fn tell(&mut self, out: &mut [u8], at: usize, number: u64, kind: u8, bytes: &[u8]) -> usize
        ensures text { at + ROOM ≤ length out.old → take result out.new
            ≡ take at out.old ++ (telling number self.old kind bytes.now).text }
        ensures state { self.new ≡ (telling number self.old kind bytes.now).next };
}

// Where the records of a buffer end.
#[derive(Clone, Copy)]
pub enum Left {
    // In a record whose end is still to be read, or in none.
    More,
    // At a wrong mark, or a record that is short at the end of the input.
    Stopped,
    // At the end of the input.
    Ended,
}

// Where a program stands: its place in the buffer, the bytes of input before it, the number of the next record, and how many bytes it has laid of
// what it tells.
#[derive(Clone, Copy)]
pub struct Place {
    pub at: usize,
    pub passed: u64,
    pub records: u64,
    pub laid: usize,
}

// What is ahead of a place: whether a whole record is to be told, and the place behind it. If none is, the place itself, and whether there may be
// more to tell once what is laid has been handed out; else where the records end.
#[derive(Clone, Copy)]
pub struct Ahead {
    pub whole: bool,
    pub full: bool,
    pub left: Left,
    pub place: Place,
}

// What a program holds from one read to the next: the bytes that wait at the front of its buffer, those of input before them, the records so
// far, and whether to go on.
#[derive(Clone, Copy)]
pub struct Held {
    pub have: usize,
    pub passed: u64,
    pub records: u64,
    pub going: bool,
}

// Nothing is read yet.
pub fn unread() -> Held
    ensures { result ≡ nothing_read }
{
    Held {
        have: 0,
        passed: 0,
        records: 0,
        going: true,
    }
}

// The front of a buffer of which nothing is told yet.
pub fn front(held: Held) -> Ahead
    ensures { result ≡ waiting (front_of held) }
{
    let place = Place {
        at: 0,
        passed: held.passed,
        records: held.records,
        laid: 0,
    };
    Ahead {
        whole: false,
        full: true,
        left: Left::More,
        place,
    }
}

// Where the records end, by what was found in place of one.
fn left_at(found: Found) -> Left
    ensures { result ≡ left_at found }
{
    match found {
        Found::WrongMark => Left::Stopped,
        Found::Short => Left::Stopped,
        Found::End => Left::Ended,
        Found::More => Left::More,
        Found::Record {
            start: _,
            len: _,
            next: _,
        } => Left::More,
    }
}

// The place behind a record of `len` bytes, which begins at `next` in the buffer.
fn place_behind(place: Place, len: usize, next: usize) -> Place
    requires { 3 + len < 2 ^ 64 }
    ensures { result ≡ past_record place len next }
{
    Place {
        at: next,
        passed: place.passed.wrapping_add((3 + len) as u64),
        records: place.records.wrapping_add(1),
        laid: place.laid,
    }
}

// What is ahead of a place in a buffer, where a record's mark is CC and then one of `kinds`; `ended` says that no more bytes follow those of the
// buffer. There is room for what a record tells where no more than `most` bytes are laid.
pub fn look(buf: &[u8], place: Place, ended: bool, kinds: &[u8], most: usize) -> Ahead
    ensures { result ≡ ahead_of ((0xCC ∷ []) ∷ kinds.now ∷ []) ended most buf.now place }
{
    if most < place.laid {
        return Ahead {
            whole: false,
            full: true,
            left: Left::More,
            place,
        };
    }
    let found = program_records::next_record(buf, place.at, ended, 0xCC, kinds);
    let Found::Record {
        start: _,
        len,
        next,
    } = found
    else {
        let left = left_at(found);
        return Ahead {
            whole: false,
            full: false,
            left,
            place,
        };
    };
    let place = place_behind(place, len, next);
    Ahead {
        whole: true,
        full: false,
        left: Left::More,
        place,
    }
}

// The kind of the record at a place, which is the second byte of its mark; 0 where that is not there.
pub fn kind_at(buf: &[u8], at: usize) -> u8
    ensures { result ≡ kind (drop at buf.now) }
{
    byte_at(behind(buf, at), 1)
}

// The bytes of the record at a place, as far as they are there.
pub fn body_at(buf: &[u8], at: usize) -> &[u8]
    ensures { result.now ≡ body (drop at buf.now) }
{
    let rest = behind(buf, at);
    part(rest, 3, usize::from(byte_at(rest, 2)))
}

// Lays the last line, if the input ends here.
fn put_end(out: &mut [u8], at: usize, left: Left, start: u64, records: u64) -> usize
    ensures { Laid (last_line left start records) out.old at result out.new }
{
    match left {
        Left::More => program_text::put_word(out, at, b""),
        Left::Stopped => program_lines::put_stopped_line(out, at, start),
        Left::Ended => program_lines::put_end_line(out, at, records),
    }
}

// The place ahead, where what is laid ends at `end`.
pub fn onward(ahead: Ahead, end: usize) -> Place
    ensures { result ≡ reached ahead end }
{
    let place = ahead.place;
    Place {
        at: place.at,
        passed: place.passed,
        records: place.records,
        laid: end,
    }
}

// Lays the last line behind what is laid, if the input ends here.
pub fn put_last(out: &mut [u8], ahead: Ahead) -> Ahead
    ensures laid { Laid (last_line ahead.left ahead.place.passed ahead.place.records) out.old ahead.place.laid result.place.laid out.new }
    ensures value { result ≡ with_laid ahead result.place.laid }
{
    let left = ahead.left;
    let place = ahead.place;
    let end = put_end(out, place.laid, left, place.passed, place.records);
    let after = onward(ahead, end);
    Ahead {
        whole: ahead.whole,
        full: ahead.full,
        left,
        place: after,
    }
}

// Whether there is more to read.
fn goes_on(left: Left) -> bool
    ensures { result ≡ goes_on left }
{
    match left {
        Left::More => true,
        Left::Stopped => false,
        Left::Ended => false,
    }
}

// Keeps those of the first `more` bytes of a buffer that are behind the place where its records end, at its front.
pub fn keep(buf: &mut [u8], more: usize, ahead: Ahead) -> Held
    ensures moved { Moved (between ahead.place.at more buf.old) buf.old result.have buf.new }
    ensures value { result ≡ held_at result.have ahead }
{
    let left = ahead.left;
    let place = ahead.place;
    let going = goes_on(left);
    let have = program_records::move_to_front(buf, place.at, more);
    Held {
        have,
        passed: place.passed,
        records: place.records,
        going,
    }
}

// Lays what the records that are whole in the buffer tell, as long as there is room for one more,
// and the last line.
fn drain<T: Teller>(buf: &[u8], ended: bool, out: &mut [u8], from: Place, teller: &mut T) -> Ahead
    requires { T.ROOM + 64 ≤ length out.old }
    ensures text { told_from (mark_of T.kinds) T.telling ended buf.now from teller.old
        ≡ before (take result.place.laid out.new)
        (left_to_tell (mark_of T.kinds) T.telling ended buf.now result teller.new) }
    ensures onward { result.full ≡ true
        → (from.at < result.place.at) × (result.place.at ≤ length buf.now) }
{
    let most = out.len() - T::ROOM.max(LAST_LINE);
    let mut place = Place {
        at: from.at,
        passed: from.passed,
        records: from.records,
        laid: 0,
    };
    loop {
        let ahead = look(buf, place, ended, teller.kinds(), most);
        if !ahead.whole {
            return put_last(out, ahead);
        }
        let end = teller.tell(
            out,
            place.laid,
            place.records,
            kind_at(buf, place.at),
            body_at(buf, place.at),
        );
        place = onward(ahead, end);
    }
}

// Hands a text to the output: what the records from one place of the buffer to another tell.
fn send<T: Teller, W: Write>(
    output: &mut W,
    text: &[u8],
    buf: &[u8],
    ended: bool,
    from: Place,
    at_first: &T,
    to: Ahead,
    at_last: &T,
) -> io::Result<()>
    requires { told_from (mark_of T.kinds) T.telling ended buf.now from at_first.now
        ≡ before text.now (left_to_tell (mark_of T.kinds) T.telling ended buf.now to at_last.now) }
    ensures { IfOk result (λ _. Appends (W.contents output.old) (W.contents output.new) text.now) }
{
    output.write_all(text)
}

// Hands out what every record that is whole in the buffer tells, in as many pieces as the room
// makes of it.
fn tell_all<T: Teller, W: Write>(
    output: &mut W,
    buf: &[u8],
    ended: bool,
    out: &mut [u8],
    held: Held,
    teller: &mut T,
) -> io::Result<Ahead>
    requires { T.ROOM + 64 ≤ length out.old }
    ensures ok { IfOk result (λ to. HandedOut (W.contents output.old) (W.contents output.new)
        (told (mark_of T.kinds) T.telling ended buf.now held.passed held.records teller.old)
        (done_at buf.now to teller.new)) }
{
    let mut place = front(held).place;
    loop {
        let at_first = *teller;
        let to = drain(buf, ended, out, place, teller);
        send(
            output,
            part(out, 0, to.place.laid),
            buf,
            ended,
            place,
            &at_first,
            to,
            teller,
        )?;
        if !to.full {
            return Ok(to);
        }
        place = to.place;
    }
}

// Takes in the first `more` bytes of the buffer, and keeps those behind the last whole record. Where
// a write fails, the teller has what it had before.
fn take_in<T: Teller, W: Write>(
    output: &mut W,
    buf: &mut [u8],
    more: usize,
    ended: bool,
    out: &mut [u8],
    held: Held,
    teller: &mut T,
) -> io::Result<Held>
    requires { T.ROOM + 64 ≤ length out.old }
    ensures ok { IfOk result (λ to. TakenIn
        (told (mark_of T.kinds) T.telling ended (take more buf.old) held.passed held.records teller.old)
        (W.contents output.old) (W.contents output.new) buf.new to teller.new) }
    ensures err { OnErr result (buf.new ≡ buf.old) }
    ensures kept { OnErr result (teller.new ≡ teller.old) }
{
    let before = *teller;
    match tell_all(output, part(buf, 0, more), ended, out, held, teller) {
        Ok(to) => Ok(keep(buf, more, to)),
        Err(why) => {
            *teller = before;
            Err(why)
        }
    }
}

// One read of the input, behind the bytes that wait: how many bytes it gave.
fn read_more<R: Read>(input: &mut R, buf: &mut [u8], have: usize) -> io::Result<usize>
    requires { have ≤ length buf.old }
    ensures follow { IfOk result (λ n. Follow buf.old have n buf.new) }
    ensures taken { IfOk result (λ n.
        Consumes (R.remaining input.old) (R.remaining input.new) (take n (drop have buf.new))) }
    ensures err { OnErr result (take have buf.new ≡ take have buf.old) }
{
    input.read(&mut buf[have..])
}

// One read of the input, and what it completes.
fn step<T: Teller, R: Read, W: Write>(
    input: &mut R,
    output: &mut W,
    buf: &mut [u8],
    out: &mut [u8],
    held: Held,
    teller: &mut T,
) -> io::Result<Held>
    requires within { held.have ≤ length buf.old }
    requires room { T.ROOM + 64 ≤ length out.old }
    ensures ok { IfOk result (λ to. Turned (mark_of T.kinds) T.telling buf.old held teller.old
        (R.remaining input.old) (R.remaining input.new)
        (W.contents output.old) (W.contents output.new) buf.new to teller.new) }
    ensures err { OnErr result (take held.have buf.new ≡ take held.have buf.old) }
    ensures kept { OnErr result (teller.new ≡ teller.old) }
{
    let have = held.have;
    let got = read_more(input, buf, have)?;
    take_in(output, buf, have + got, got == 0, out, held, teller)
}

/// Reads the input to its end, hands out what it tells, and leaves where the program stands then.
/// Where a read or a write fails, that is where it stood before that step: of what the step
/// completes a part may be told.
pub fn run<T: Teller, R: Read, W: Write>(
    input: &mut R,
    output: &mut W,
    buf: &mut [u8],
    out: &mut [u8; 65536],
    held: &mut Held,
    teller: &mut T,
) -> io::Result<()>
    ensures ok { IfOk result (λ _. held.new.going ≡ false
        → Driven (mark_of T.kinds) T.telling true teller.old
        (R.remaining input.old) (R.remaining input.new)
        (W.contents output.old) (W.contents output.new) buf.new held.new teller.new) }
    ensures err { OnErr result (Broken (mark_of T.kinds) T.telling teller.old buf.new held.new teller.new) }
{
    let room = &mut out[..];
    *held = unread();
    for _ in 0..u64::MAX {
        *held = step(input, output, buf, room, *held, teller)?;
        if !held.going {
            return Ok(());
        }
    }
    Ok(())
}
