// The blocks of a packet in three arrays, of their numbers, sizes and payloads: measured, searched and handed out.
#![tactic(auto)]

ghost use Rattle.std.specs.Prelude.{◌≡◌, ◌≤◌};
ghost use Rattle.packet_entries.specs.Entries.{entries, good_entry};
ghost use Rattle.packet_entries.specs.Extent.{length_with, walked, extent_as, latest_of, sum_to, placed_service};

use basics::{MOST_BLOCKS, MOST_NUMBER, put_bytes};
use service::Service;

const MOST_BYTES: usize = 127;

const MOST_SIZE: u8 = 31;

/// How long a packet is, 0 without blocks, and how many bytes of payload its blocks have.
#[derive(Clone, Copy, Debug, PartialEq, Eq)]
pub struct Extent {
    pub length: usize,
    pub used: usize,
}

// Whether a block of this number and size may stand in a packet.
#[tactic(auto, unfolding(crate::specs::Entries::good_entry))]
fn good_entry(number: u8, size: u8) -> bool
    ensures { result ≡ good_entry number size }
{
    (1..=MOST_NUMBER).contains(&number) && (1..=MOST_SIZE).contains(&size)
}

// Goes over the first `count` blocks: the sum of their lengths, and of their payloads; none where
// one of them breaks a limit.
fn walk(numbers: &[u8; 63], sizes: &[u8; 63], count: usize) -> Option<Extent>
    requires { count ≤ 63 }
    ensures { result ≡ walked (entries count numbers.now sizes.now) }
{
    let mut length: usize = 0;
    let mut used: usize = 0;
    // By the place: a walk over the two slices in step (`zip`) did not close.
    for i in 0..count {
        let number = numbers[i];
        let size = sizes[i];
        if !good_entry(number, size) {
            return None;
        }
        length += service_headers::block_length(number, size);
        used += size as usize;
    }
    Some(Extent { length, used })
}

// The length of a packet of `count` blocks whose lengths sum up to `lengths`.
fn length_of(count: usize, lengths: usize) -> usize
    requires { lengths ≤ 127 }
    ensures { result ≡ length_with count lengths }
{
    if count == 0 {
        return 0;
    }
    1 + lengths
}

/// The extent of a packet that breaks no limit; none of one that does.
#[tactic(auto, using(crate::proofs::Walks::extent_sequence, crate::proofs::Walks::extent_count, crate::proofs::Walks::extent_bad, crate::proofs::Walks::extent_long, crate::proofs::Walks::extent_good))]
pub fn extent_of(seq_no: u8, count: usize, numbers: &[u8; 63], sizes: &[u8; 63]) -> Option<Extent>
    ensures { result ≡ extent_as seq_no count (entries count numbers.now sizes.now) }
{
    if 3 < seq_no {
        return None;
    }
    if MOST_BLOCKS < count {
        return None;
    }
    let blocks = walk(numbers, sizes, count)?;
    if 127 < blocks.length {
        return None;
    }
    Some(Extent {
        length: length_of(count, blocks.length),
        used: blocks.used,
    })
}

/// The sum of the first `count` sizes; 0 where there are fewer places.
#[tactic(auto, using(crate::proofs::Walks::sum_many))]
pub fn sum_of(sizes: &[u8; 63], count: usize) -> usize
    ensures { result ≡ sum_to count sizes.now }
{
    if MOST_BLOCKS < count {
        return 0;
    }
    let all = &sizes[..];
    let mut sum: usize = 0;
    for &size in &all[..count] {
        sum += size as usize;
    }
    sum
}

/// The place of the latest of the first `count` blocks that has this number; none where there are
/// fewer places.
#[tactic(auto, using(crate::proofs::Walks::latest_many))]
pub fn latest(numbers: &[u8; 63], count: usize, number: u8) -> Option<usize>
    ensures { result ≡ latest_of count numbers.now number }
{
    if MOST_BLOCKS < count {
        return None;
    }
    let all = &numbers[..];
    all[..count].iter().rposition(|&n| n == number)
}

/// The block at a place of the arrays.
pub fn block_at(numbers: &[u8; 63], sizes: &[u8; 63], payload: &[u8; 127], place: usize) -> Service
    ensures { result ≡ placed_service place numbers.now sizes.now payload.now }
{
    let mut bytes = [0u8; 31];
    if MOST_BLOCKS <= place {
        return Service {
            number: 0,
            len: 0,
            payload: bytes,
        };
    }
    let size = sizes[place] as usize;
    let from = sum_of(sizes, place).min(MOST_BYTES);
    let end = (from + size).min(MOST_BYTES);
    let all = &payload[..];
    put_bytes(&mut bytes, 0, &all[from..end]);
    Service {
        number: numbers[place],
        len: size,
        payload: bytes,
    }
}
