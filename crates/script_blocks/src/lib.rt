// The operations of a script, by their letters, on its block: each makes one call, and lays the line that tells of it into a lent buffer from a
// place on.
#![tactic(auto)]

ghost use Rattle.std.specs.Prelude.{◌≡◌};
ghost use Rattle.caption.specs.Answers.{outcome};
ghost use Rattle.service.specs.Service.{valid_service, bytes_of};
ghost use Rattle.program_text.specs.Laid.{Laid};
ghost use Rattle.script_answers.specs.Steps.{Did, written_line};
ghost use Rattle.script_answers.specs.Rows.{sought, Tried};
ghost use Rattle.script_blocks.specs.Lines.{block_line, measured_block};
ghost use Rattle.script_blocks.specs.Blocks.{renews_block, pushes_to_block, reads_block, sets_block, block_rows};

use caption::Refusal;
use program_text::{put_newline, put_word};
use service::Service;

// A block that was read: its number and its payload.
fn put_block_line(out: &mut [u8], at: usize, block: &Service) -> usize
    ensures { Laid (block_line block.now) out.old at result out.new }
{
    let p = put_word(out, at, b"ok");
    let q = program_lines::put_value(out, p, block.number as u64);
    let payload = &block.payload[..];
    let s = program_lines::put_run(out, q, program_records::part(payload, 0, block.len));
    put_newline(out, s)
}

// A new block, where the call accepts.
fn new_block(out: &mut [u8], at: usize, block: &mut Service, number: u8) -> usize
    ensures { Did (renews_block number block.old) out.old at result block.new out.new }
{
    match Service::new(number) {
        Ok(made) => {
            *block = made;
            script_answers::put_ok_line(out, at)
        }
        Err(why) => script_answers::put_refusal_line(out, at, why),
    }
}

// A run pushed to the block.
fn push_to_block(out: &mut [u8], at: usize, block: &mut Service, run: &[u8]) -> usize
    ensures { Did (pushes_to_block run.now block.old) out.old at result block.new out.new }
{
    let answer = block.push_code(run);
    script_answers::put_done_line(out, at, answer)
}

// A block read out of bytes, where the call accepts.
fn read_block(out: &mut [u8], at: usize, block: &mut Service, bytes: &[u8]) -> usize
    ensures { Did (reads_block bytes.now block.old) out.old at result block.new out.new }
{
    match Service::parse(bytes) {
        Ok(read) => {
            *block = read;
            put_block_line(out, at, block)
        }
        Err(why) => script_answers::put_refusal_line(out, at, why),
    }
}

// Two fields of the block set, whatever they break.
fn set_block(out: &mut [u8], at: usize, block: &mut Service, number: u8, len: u8) -> usize
    ensures { Did (sets_block number len block.old) out.old at result block.new out.new }
{
    block.number = number;
    block.len = len as usize;
    script_answers::put_ok_line(out, at)
}

// The block measured: number, length, room, 1 if it is empty.
fn measured_block(block: &Service) -> Result<[usize; 4], Refusal>
    ensures { outcome result ≡ measured_block block.now }
{
    let number = block.number()?;
    let length = block.len()?;
    let room = block.free_space()?;
    let empty = block.is_empty()?;
    Ok([number as usize, length, room, empty as usize])
}

// The block written to an output of so many bytes, which is told whole.
fn put_written_block(out: &mut [u8], at: usize, block: &Service, len: u8) -> usize
    ensures { Laid (written_line (valid_service block.now) (bytes_of block.now) len)
        out.old at result out.new }
{
    let mut lent = [0xA5u8; 255];
    let front = &mut lent[..len as usize];
    let answer = block.write(front);
    script_answers::put_written_line(out, at, answer, front)
}

/// An operation on the block, by its letter and its argument bytes: the place behind the line that
/// tells of it, or `None` for one that there is not, which does nothing.
#[tactic(auto, unfolding(crate::specs::Blocks::block_rows, script_answers::specs::Rows::sought))]
pub fn on_block(
    out: &mut [u8],
    at: usize,
    block: &mut Service,
    op: u8,
    args: &[u8],
) -> Option<usize>
    ensures { Tried (sought (block_rows block.old) op args.now)
        block.old out.old at result block.new out.new }
{
    match (op, args) {
        (b'b', [number]) => Some(new_block(out, at, block, *number)),
        (b'c', run) => Some(push_to_block(out, at, block, run)),
        (b'd', bytes) => Some(read_block(out, at, block, bytes)),
        (b'B', [number, len]) => Some(set_block(out, at, block, *number, *len)),
        (b'm', []) => Some(script_answers::put_measures_line(out, at, measured_block(block))),
        (b'e', [len]) => Some(put_written_block(out, at, block, *len)),
        (b'y', bytes) => Some(script_answers::put_run_line(out, at, service::payload_of(bytes))),
        _ => None,
    }
}
