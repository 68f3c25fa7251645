// The list of the pairs of a frame: pairs listed, and a list tested.
#![tactic(auto)]

ghost use Rattle.std.specs.Prelude.{◌≡◌, List, ◌∷◌, ◌+◌, ◌%◌, ◌≤◌, ◌<◌, length};
ghost use Rattle.model.specs.Frame.{Seen, seen, tri};
ghost use Rattle.parser_triples.specs.Walk.{seen_from};
ghost use Rattle.parser_lists.specs.Listing.{listing, listed_by, fields_fine, list_fine};

use basics::MOST_FRAME;

const MOST_PAIRS: usize = 31;

// Lays the pair of a triple of the 608 part, if it is valid, behind the n that are there; answers how many there are then.
fn put_pair(pairs: &mut [u8; 93], n: usize, c: u8, x: u8, y: u8) -> usize
    requires n_bound { n < 31 }
    requires c_bound { c % 4 < 2 }
    ensures ts_value { (ts : List Seen) →
        listing n pairs.old (seen (tri c x y) ∷ ts) ≡ listing result pairs.new ts }
    ensures upper_bound { result ≤ n + 1 }
{
    if c % 8 < 4 {
        return n;
    }
    pairs[3 * n] = c % 4;
    pairs[3 * n + 1] = x;
    pairs[3 * n + 2] = y;
    n + 1
}

// Lists the pairs of a frame's 608 part; answers how many there are.
fn list_pairs(pairs: &mut [u8; 93], frame: &[u8]) -> usize
    requires { length frame.now ≤ 95 }
    ensures { record { count = result; places = pairs.new } ≡ listing 0 pairs.old (seen_from 0 frame.now) }
{
    let mut n: usize = 0;
    let mut i = 0;
    while 3 * i + 4 < frame.len() {
        let c = frame[3 * i + 2];
        if c % 4 >= 2 {
            return n;
        }
        n = put_pair(pairs, n, c, frame[3 * i + 3], frame[3 * i + 4]);
        i += 1;
    }
    n
}

/// Lists the pairs of a frame of at most 31 triples where 608 is on, and else none; answers how many there are [F1] [F7].
pub fn list_frame(on: bool, pairs: &mut [u8; 93], frame: &[u8]) -> usize
    ensures { record { count = result; places = pairs.new } ≡ listed_by on pairs.old frame.now }
{
    if !on {
        return 0;
    }
    if MOST_FRAME < frame.len() {
        return 0;
    }
    list_pairs(pairs, frame)
}

// Whether each of the first pairs is of field 1 or 2.
fn fields_good(pairs: &[u8; 93], n: usize) -> bool
    requires { n ≤ 31 }
    ensures { result ≡ fields_fine n pairs.now }
{
    for i in 0..n {
        if 1 < pairs[3 * i] {
            return false;
        }
    }
    true
}

/// Whether the list has at most 31 pairs, each of field 1 or 2, and none while 608 is off.
pub fn list_good(on: bool, pairs: &[u8; 93], n: usize) -> bool
    ensures { result ≡ list_fine on n pairs.now }
{
    if MOST_PAIRS < n {
        return false;
    }
    if on {
        return fields_good(pairs, n);
    }
    n == 0
}
