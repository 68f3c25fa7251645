//! What is asked of the bytes of a proposal: that each is in one piece, that those of a service keep their order, and that no run is split. The time is
//! linear in the input: a table tells of each byte which piece holds it.
#![tactic(auto)]

ghost use Rattle.std.specs.Prelude.{◌≡◌, true, ◌+◌, ◌-◌, ◌*◌, ◌≤◌, ◌<◌, length, replicate};
ghost use Rattle.model.specs.Lists.{every};
ghost use Rattle.caption.specs.Answers.{outcome};
ghost use Rattle.model.specs.Said.{says};
ghost use Rattle.model_packing.specs.Pieces.{pieces_of, bytes_of};
ghost use Rattle.model_packing.specs.Proposals.{inside};
ghost use Rattle.packing_bytes.specs.Bytes.{bytes_said};
ghost use Rattle.packing_bytes.specs.Table.{nth_piece, cell_of, LowPiece, Fills, Empty, TellsHolders, TellsOrNot, FewRuns, has_holder, one_block, beside_first, follows, follow};

use caption::Refusal;
use packing_runs::{MOST_NUMBERS, MOST_RUNS, PIECE, number_at};

// How many cells of the table a run has.
const RUN_CELLS: usize = 256;

// How many cells the table has.
const CELLS: usize = 65536;

// Tells of each byte which piece holds it.
type Table = [u16; CELLS];

// The sum of the lengths of all runs.
fn count_bytes(services: &[u8], lengths: &[u8]) -> usize
    requires { length services.now ≤ 256 }
    ensures { (result ≡ length (bytes_of services.now lengths.now)) × (result ≤ 65280) }
{
    let mut sum: usize = 0;
    for run in 0..services.len() {
        sum += number_at(lengths, run);
    }
    sum
}

// How many pieces there are, counted no further than one past the most.
fn count_pieces(pieces: &[u8], most: usize) -> usize
    requires { most ≤ 65280 }
    ensures { (result ≤ most → result ≡ length (pieces_of pieces.now)) × (most < result → most < length (pieces_of pieces.now)) }
{
    // Counted and not divided: some processors have no instruction for a division.
    let n = pieces.len();
    let mut o = 0;
    let mut count: usize = 0;
    while PIECE <= n - o {
        if most < count {
            return count;
        }
        count += 1;
        o += PIECE;
    }
    count
}

// Whether a piece has a byte or more, and its bytes are its run's.
#[tactic(auto, using(crate::proofs::Tests::inside_empty, crate::proofs::Tests::inside_nowhere))]
fn is_inside(services: &[u8], lengths: &[u8], pieces: &[u8], place: usize) -> bool
    requires { place < 65280 }
    ensures { (result ≡ inside services.now lengths.now (nth_piece pieces.now place)) × (result ≡ true → LowPiece (nth_piece pieces.now place)) }
{
    let run = number_at(pieces, PIECE * place);
    let first = number_at(pieces, PIECE * place + 1);
    let size = number_at(pieces, PIECE * place + 2);
    if size < 1 {
        return false;
    }
    if services.len() <= run {
        return false;
    }
    first + size <= number_at(lengths, run)
}

// Fills so many cells from a cell on, as long as they have 0.
#[tactic(auto, using(crate::proofs::Cells::free_stops))]
fn fill_cells(table: &mut Table, from: usize, size: usize, value: u16) -> bool
    requires { from + size ≤ 65536 }
    ensures { Fills size from value table.old table.new result }
{
    for at in from..from + size {
        if table[at] != 0 {
            return false;
        }
        table[at] = value;
    }
    true
}

// Fills the cells of the bytes of a piece.
fn fill_piece(pieces: &[u8], place: usize, table: &mut Table) -> bool
    requires { (place < 65280) × LowPiece (nth_piece pieces.now place) }
    ensures { Fills (nth_piece pieces.now place).size (cell_of (nth_piece pieces.now place)) (place + 1) table.old table.new result }
{
    let run = number_at(pieces, PIECE * place);
    let first = number_at(pieces, PIECE * place + 1);
    let size = number_at(pieces, PIECE * place + 2);
    let value = (place + 1) as u16;
    fill_cells(table, RUN_CELLS * run + first, size, value)
}

// Fills the cells of all pieces, from the last one to the first.
fn fill_table(
    services: &[u8],
    lengths: &[u8],
    pieces: &[u8],
    count: usize,
    table: &mut Table,
) -> bool
    requires { (count ≡ length (pieces_of pieces.now)) × (count ≤ 65280) × (length services.now ≤ 256) × Empty table.old }
    ensures { TellsOrNot services.now lengths.now table.new (pieces_of pieces.now) result }
{
    let mut place = count;
    while 0 < place {
        place -= 1;
        if !is_inside(services, lengths, pieces, place) {
            return false;
        }
        if !fill_piece(pieces, place, table) {
            return false;
        }
    }
    true
}

// Whether every byte has a holder.
#[tactic(auto, using(crate::proofs::Walks::held_stops, crate::proofs::Walks::held_more))]
fn all_held(services: &[u8], lengths: &[u8], table: &Table) -> bool
    requires { length services.now ≤ 256 }
    ensures { result ≡ every (has_holder table.now) (bytes_of services.now lengths.now) }
{
    let n = services.len();
    let mut run = 0;
    let mut byte: usize = 0;
    while run < n {
        if number_at(lengths, run) <= byte {
            run += 1;
            byte = 0;
            continue;
        }
        if table[RUN_CELLS * run + byte] == 0 {
            return false;
        }
        byte += 1;
    }
    true
}

// Where the piece that a cell names lies: 256 times its packet, and its block.
fn lies_at(pieces: &[u8], holder: u16) -> usize
    requires { 0 < holder }
    ensures { (result ≡ 256 * (nth_piece pieces.now (holder - 1)).packet + (nth_piece pieces.now (holder - 1)).block) × ((nth_piece pieces.now (holder - 1)).block < 256) }
{
    let o = PIECE * (holder as usize - 1);
    MOST_NUMBERS * number_at(pieces, o + 3) + number_at(pieces, o + 4)
}

// Whether two cells name pieces of one block.
fn in_one_block(pieces: &[u8], a: u16, b: u16) -> bool
    requires { (0 < a) × (0 < b) }
    ensures { result ≡ one_block pieces.now a b }
{
    lies_at(pieces, a) == lies_at(pieces, b)
}

// Whether what a cell names is not sent before what another names, if that names anything.
fn follows_last(pieces: &[u8], last: u16, holder: u16) -> bool
    requires { 0 < holder }
    ensures { result ≡ follows pieces.now last holder }
{
    if last == 0 {
        return true;
    }
    let x = lies_at(pieces, last);
    let y = lies_at(pieces, holder);
    if x == y {
        return last <= holder;
    }
    x < y
}

// Whether the bytes of each service keep their order.
fn all_follow(services: &[u8], lengths: &[u8], pieces: &[u8], table: &Table) -> bool
    requires { (length services.now ≤ 256) × (every (has_holder table.now) (bytes_of services.now lengths.now) ≡ true) }
    ensures { result ≡ follow services.now pieces.now table.now (replicate 256 0) (bytes_of services.now lengths.now) }
{
    let n = services.len();
    let mut last: [u16; 256] = [0; 256];
    let mut run = 0;
    let mut byte: usize = 0;
    while run < n {
        if number_at(lengths, run) <= byte {
            run += 1;
            byte = 0;
            continue;
        }
        let holder = table[RUN_CELLS * run + byte];
        let service = number_at(services, run);
        if !follows_last(pieces, last[service], holder) {
            return false;
        }
        last[service] = holder;
        byte += 1;
    }
    true
}

// Whether each run is in one block.
fn all_whole(services: &[u8], lengths: &[u8], pieces: &[u8], table: &Table) -> bool
    requires { (length services.now ≤ 256) × (every (has_holder table.now) (bytes_of services.now lengths.now) ≡ true) }
    ensures { result ≡ every (beside_first pieces.now table.now) (bytes_of services.now lengths.now) }
{
    let n = services.len();
    let mut run = 0;
    let mut byte: usize = 0;
    while run < n {
        if number_at(lengths, run) <= byte {
            run += 1;
            byte = 0;
            continue;
        }
        if !in_one_block(
            pieces,
            table[RUN_CELLS * run + byte],
            table[RUN_CELLS * run],
        ) {
            return false;
        }
        byte += 1;
    }
    true
}

// The answer by a table that tells of all pieces.
fn answer_told(services: &[u8], lengths: &[u8], pieces: &[u8], table: &Table) -> Result<(), Refusal>
    requires { FewRuns services.now lengths.now × TellsHolders services.now lengths.now table.now 0 (pieces_of pieces.now) }
    ensures { says (outcome result) ≡ bytes_said services.now lengths.now (pieces_of pieces.now) }
{
    if !all_held(services, lengths, table) {
        return Err(Refusal::BadCover);
    }
    if !all_follow(services, lengths, pieces, table) {
        return Err(Refusal::OutOfOrder);
    }
    if !all_whole(services, lengths, pieces, table) {
        return Err(Refusal::RunSplit);
    }
    Ok(())
}

/// Whether the bytes of a proposal are covered, keep their order and are not split [Q2] [Q3] [Q4]. Refused, in this order: `OverLimit` for more than
/// 256 runs, `BadCover`, `OutOfOrder`, `RunSplit`.
#[tactic(auto, using(crate::proofs::Told::said_many, crate::proofs::Told::said_crowded))]
pub fn check_bytes(services: &[u8], lengths: &[u8], pieces: &[u8]) -> Result<(), Refusal>
    ensures { says (outcome result) ≡ bytes_said services.now lengths.now (pieces_of pieces.now) }
{
    if MOST_RUNS < services.len() {
        return Err(Refusal::OverLimit);
    }
    let bytes = count_bytes(services, lengths);
    let count = count_pieces(pieces, bytes);
    if bytes < count {
        return Err(Refusal::BadCover);
    }
    let mut table: Table = [0; CELLS];
    if !fill_table(services, lengths, pieces, count, &mut table) {
        return Err(Refusal::BadCover);
    }
    answer_told(services, lengths, pieces, &table)
}
