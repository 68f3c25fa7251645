//! Whether the pieces of a proposal keep the limits of blocks and packets: the service and the bytes of each block go into two tables of 256 places
//! for each packet, and each packet is summed up from there.
#![tactic(auto)]

ghost use Rattle.std.specs.Prelude.{◌≡◌, true, [], ◌+◌, ◌%◌, ◌<◌, ◌≤◌, length};
ghost use Rattle.model.specs.Lists.{every};
ghost use Rattle.model.specs.Packet.{valid_packet};
ghost use Rattle.model_packing.specs.Pieces.{pieces_of, count_from};
ghost use Rattle.model_packing.specs.Proposals.{limits, most_numbers};
ghost use Rattle.packing_limits.specs.Tables.{piece_at, PlacedIn, agrees, Entered, EnteredPiece, all_join, Tables, block_at, packet_at, taken};

use basics::{MOST_NUMBER, MOST_PACKET, MOST_PAYLOAD};
use packing_runs::{MOST_NUMBERS, PIECE, number_at, runs_fit};
use service_headers::block_length;

// Where the last piece ends: fewer than five numbers at the end make none.
fn pieces_end(pieces: &[u8]) -> usize
    ensures { (result % 5 ≡ 0) × (result ≤ length pieces.now) × (length pieces.now < result + 5) }
{
    // Counted and not divided: some processors have no instruction for a division.
    let n = pieces.len();
    let mut end = 0;
    while PIECE <= n - end {
        end += PIECE;
    }
    end
}

// The place in the tables of the block that a piece lies in.
fn place_of(pieces: &[u8], at: usize) -> usize
    requires { at + 5 ≤ length pieces.now }
    ensures { PlacedIn (piece_at pieces.now at) result }
{
    pieces[at + 3] as usize * MOST_NUMBERS + pieces[at + 4] as usize
}

// Whether a block of this number takes a piece of that service; 0 is the number of a block without pieces.
#[tactic(auto, using(crate::proofs::Entries::admits_any, crate::proofs::Entries::admits_same))]
fn admits(number: u8, service: u8) -> bool
    ensures { result ≡ agrees number service }
{
    number == 0 || number == service
}

// Enters a piece of this service and size into the tables, at the place of its block; not one that may not stand there.
#[tactic(auto, using(crate::proofs::Entries::enter_unnamed, crate::proofs::Entries::enter_other, crate::proofs::Entries::enter_over, crate::proofs::Entries::enter_fits))]
fn enter(
    service: u8,
    size: u8,
    place: usize,
    numbers: &mut [u8; 65536],
    sizes: &mut [u8; 65536],
) -> bool
    requires { place < 65536 }
    ensures { Entered service size place numbers.old sizes.old result numbers.new sizes.new }
{
    if service < 1 {
        return false;
    }
    if admits(numbers[place], service) {
        let used = sizes[place] as usize + size as usize;
        if used <= MOST_PAYLOAD {
            numbers[place] = service;
            sizes[place] = used as u8;
            return true;
        }
    }
    false
}

// Enters the piece at a place of the list.
fn enter_piece(
    services: &[u8],
    pieces: &[u8],
    at: usize,
    numbers: &mut [u8; 65536],
    sizes: &mut [u8; 65536],
) -> bool
    requires { at + 5 ≤ length pieces.now }
    ensures { EnteredPiece services.now (piece_at pieces.now at) numbers.old sizes.old result numbers.new sizes.new }
{
    let service = number_at(services, pieces[at] as usize) as u8;
    let place = place_of(pieces, at);
    enter(service, pieces[at + 2], place, numbers, sizes)
}

// Enters all pieces into tables that have none, from the last to the first; until one may not stand in its block.
fn enter_pieces(
    services: &[u8],
    pieces: &[u8],
    numbers: &mut [u8; 65536],
    sizes: &mut [u8; 65536],
) -> bool
    requires { Tables services.now [] numbers.old sizes.old }
    ensures { (result ≡ all_join services.now (pieces_of pieces.now)) × (result ≡ true → Tables services.now (pieces_of pieces.now) numbers.new sizes.new) }
{
    let mut at = pieces_end(pieces);
    while 0 < at {
        at -= PIECE;
        if !enter_piece(services, pieces, at, numbers, sizes) {
            return false;
        }
    }
    true
}

// What the block at a place takes of its packet: all of it where the block may not stand in one.
#[tactic(auto, using(crate::proofs::Sums::takes_none, crate::proofs::Sums::takes_unknown, crate::proofs::Sums::takes_empty, crate::proofs::Sums::takes_over, crate::proofs::Sums::takes_length, crate::proofs::Sums::length_most))]
fn length_at(numbers: &[u8; 65536], sizes: &[u8; 65536], place: usize) -> usize
    requires { place < 65536 }
    ensures { (result ≡ taken (block_at numbers.now sizes.now place)) × (result ≤ 128) }
{
    let number = numbers[place];
    let size = sizes[place];
    if number == 0 {
        return 0;
    }
    if MOST_NUMBER < number {
        return MOST_PACKET;
    }
    if size < 1 {
        return MOST_PACKET;
    }
    if MOST_PAYLOAD < size as usize {
        return MOST_PACKET;
    }
    block_length(number, size)
}

// Whether the blocks of a packet keep their limits, and those of the packet with its header.
fn packet_fits(numbers: &[u8; 65536], sizes: &[u8; 65536], packet: usize) -> bool
    requires { packet < 256 }
    ensures { result ≡ valid_packet (packet_at numbers.now sizes.now packet) }
{
    let mut length: usize = 1;
    for block in 0..MOST_NUMBERS {
        length += length_at(numbers, sizes, packet * MOST_NUMBERS + block);
        if MOST_PACKET < length {
            return false;
        }
    }
    true
}

// Whether every packet does.
fn packets_fit(numbers: &[u8; 65536], sizes: &[u8; 65536]) -> bool
    ensures { result ≡ every (λ p. valid_packet (packet_at numbers.now sizes.now p)) (count_from 0 most_numbers) }
{
    for packet in 0..MOST_NUMBERS {
        if !packet_fits(numbers, sizes, packet) {
            return false;
        }
    }
    true
}

/// Whether every run fits, every block is of one service, and every packet keeps its limits [Q6].
pub fn within_limits(services: &[u8], lengths: &[u8], pieces: &[u8]) -> bool
    ensures { result ≡ limits services.now lengths.now (pieces_of pieces.now) }
{
    if !runs_fit(services, lengths) {
        return false;
    }
    let mut numbers: [u8; 65536] = [0; 65536];
    let mut sizes: [u8; 65536] = [0; 65536];
    enter_pieces(services, pieces, &mut numbers, &mut sizes) && packets_fit(&numbers, &sizes)
}
