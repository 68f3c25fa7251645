//! What `ccpack` prints for a job: the answer to a proposal, or the lines of one that it makes. Lines are laid into a lent buffer from a place on and
//! as far as there is room; each function that lays some answers the place behind them.
#![tactic(auto)]

ghost use Rattle.std.specs.Prelude.{◌≡◌, [], ◌<◌, ◌≤◌, length};
ghost use Rattle.caption.specs.Answers.{said};
ghost use Rattle.model_packing.specs.Pieces.{pieces_of};
ghost use Rattle.program_text.specs.Laid.{Laid};
ghost use Rattle.ccpack_report.specs.Lines.{answer_line, packets_line, piece_line, piece_lines, proposal_lines, packed_text};
ghost use Rattle.ccpack_report.specs.Jobs.{check_job, propose_job, job_of, job_in, checked_text, job_text, kept_job, kept_length};

use caption::Refusal;
use packing_runs::MOST_RUNS;
use program_lines::put_value;
use program_records::{byte_at, part};
use program_text::{put_newline, put_word};

/// So many bytes of a job are kept.
pub const MOST_KEPT: usize = 327680;

// What a job is: none, one with too many runs, or one to check or to propose, with its number of runs.
#[derive(Clone, Copy)]
enum Job {
    Bad,
    TooMany,
    Check(usize),
    Propose(usize),
}

// The place behind the lines of pieces, and how many these are.
#[derive(Clone, Copy)]
struct Listed {
    laid: usize,
    count: u64,
}

// A job to check, by its number of runs and its length.
fn check_job(runs: usize, size: usize) -> Job
    ensures { result ≡ check_job runs size }
{
    if MOST_RUNS < runs {
        return Job::TooMany;
    }
    let head = 3 + 2 * runs;
    if size < head {
        return Job::Bad;
    }
    if (size - head) % 5 == 0 {
        return Job::Check(runs);
    }
    Job::Bad
}

// A job to propose, by its number of runs and its length.
fn propose_job(runs: usize, size: usize) -> Job
    ensures { result ≡ propose_job runs size }
{
    if MOST_RUNS < runs {
        return Job::TooMany;
    }
    if size == 3 + 2 * runs {
        return Job::Propose(runs);
    }
    Job::Bad
}

// What a job is, by its kind, its number of runs and its length.
fn job_of(kind: u8, runs: usize, size: usize) -> Job
    ensures { result ≡ job_of kind runs size }
{
    if size < 3 {
        return Job::Bad;
    }
    if kind == b'C' {
        return check_job(runs, size);
    }
    if kind == b'P' {
        return propose_job(runs, size);
    }
    Job::Bad
}

// How long a job is, of which at most so many bytes are kept; of those beyond, as many are counted as make the length right modulo 5.
fn kept_length(kept: usize, over: usize) -> usize
    requires { kept < 9223372036854775808 }
    ensures { result ≡ kept_length kept over }
{
    if kept < MOST_KEPT {
        return kept;
    }
    kept + over % 5
}

// What the bytes of a job are that were kept, where `over` bytes are beyond.
fn look(job: &[u8], over: usize) -> Job
    ensures { result ≡ job_in (kept_job job.now over) }
{
    let runs = 256 * byte_at(job, 1) as usize + byte_at(job, 2) as usize;
    job_of(byte_at(job, 0), runs, kept_length(job.len(), over))
}

// The line of an answer.
fn put_answer_line(out: &mut [u8], at: usize, answer: Result<(), Refusal>) -> usize
    ensures { Laid (answer_line (said (λ _. []) answer)) out.old at result out.new }
{
    let p = program_lines::put_done(out, at, answer);
    put_newline(out, p)
}

// The line that says how many packets a proposal fills.
fn put_packets_line(out: &mut [u8], at: usize, packets: u64) -> usize
    ensures { Laid (packets_line packets) out.old at result out.new }
{
    let p = put_word(out, at, b"packets");
    let q = put_value(out, p, packets);
    put_newline(out, q)
}

// The line of a piece.
fn put_piece(
    out: &mut [u8],
    at: usize,
    run: u8,
    first: u8,
    size: u8,
    packet: u8,
    block: u8,
) -> usize
    ensures { Laid (piece_line (record { run = run; first = first; size = size; packet = packet; block = block })) out.old at result out.new }
{
    let a = put_word(out, at, b"piece");
    let b = put_value(out, a, run as u64);
    let c = put_value(out, b, first as u64);
    let d = put_value(out, c, size as u64);
    let e = put_value(out, d, packet as u64);
    let f = put_value(out, e, block as u64);
    put_newline(out, f)
}

// A line for each piece, of five numbers.
fn put_pieces(out: &mut [u8], at: usize, numbers: &[u8]) -> Listed
    requires { at ≤ length out.old }
    ensures laid { Laid (piece_lines (pieces_of numbers.now)) out.old at result.laid out.new }
    ensures count_value { result.count ≡ length (pieces_of numbers.now) }
{
    let n = numbers.len();
    let mut i: usize = 0;
    let mut count: u64 = 0;
    let mut laid = at;
    while 5 <= n - i {
        laid = put_piece(
            out,
            laid,
            numbers[i],
            numbers[i + 1],
            numbers[i + 2],
            numbers[i + 3],
            numbers[i + 4],
        );
        i += 5;
        count += 1;
    }
    Listed { laid, count }
}

// The lines of a proposal, of which the packets that it fills and the numbers of its pieces are known.
fn put_proposal(out: &mut [u8], at: usize, packets: u64, numbers: &[u8]) -> usize
    ensures { Laid (proposal_lines packets (pieces_of numbers.now)) out.old at result out.new }
{
    let p = put_packets_line(out, at, packets);
    let listed = put_pieces(out, p, numbers);
    program_lines::put_end_line(out, listed.laid, listed.count)
}

// The line of what a proposal in a job is answered.
fn put_checked(out: &mut [u8], at: usize, job: &[u8], runs: usize) -> usize
    requires { runs ≤ 256 }
    ensures { Laid (checked_text runs job.now) out.old at result out.new }
{
    let services = part(job, 3, runs);
    let lengths = part(job, 3 + runs, runs);
    let numbers = part(job, 3 + 2 * runs, job.len());
    put_answer_line(out, at, packing::check(services, lengths, numbers))
}

// The lines of a proposal for runs, or that they cannot be packed.
fn put_packed(out: &mut [u8], at: usize, services: &[u8], lengths: &[u8]) -> usize
    ensures { Laid (packed_text services.now lengths.now) out.old at result out.new }
{
    let mut lent = [0u8; 1280];
    match packing::propose(services, lengths, &mut lent) {
        Ok(made) => put_proposal(out, at, made.packets as u64, part(&lent, 0, made.len)),
        Err(why) => put_answer_line(out, at, Err(why)),
    }
}

/// What is told of a job, of which at most MOST_KEPT bytes are kept and `over` bytes are beyond these.
pub fn put_job(out: &mut [u8], at: usize, job: &[u8], over: usize) -> usize
    ensures { Laid (job_text (kept_job job.now over)) out.old at result out.new }
{
    match look(job, over) {
        Job::Bad => put_word(out, at, b"bad\n"),
        Job::TooMany => put_answer_line(out, at, Err(Refusal::OverLimit)),
        Job::Check(runs) => put_checked(out, at, job, runs),
        Job::Propose(runs) => { put_packed(out, at, part(job, 3, runs), part(job, 3 + runs, runs)) }
    }
}
