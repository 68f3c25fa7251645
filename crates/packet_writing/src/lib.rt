// A packet written from its three arrays, of the numbers, sizes and payloads of its blocks.
#![tactic(auto)]

ghost use Rattle.std.specs.Prelude.{◌≡◌, cond, ◌+◌, ◌*◌, ◌/◌, ◌%◌, ◌≤◌, length, eqb};
ghost use Rattle.std.proofs.lemmas.List.Edits.{sets};
ghost use Rattle.model.specs.Packet.{written_blocks, fill};
ghost use Rattle.model.specs.Block.{written_block};
ghost use Rattle.packet_entries.specs.Fields.{fields, block_from};
ghost use Rattle.packet_entries.specs.Entries.{entries, cut};
ghost use Rattle.caption.specs.Answers.{outcome};
ghost use Rattle.model.specs.Said.{after, mapped};
ghost use Rattle.packet_writing.specs.Writing.{Writable, bytes_in, written};

use basics::put_bytes;
use caption::Refusal;

/// Writes a packet to a lent output; answers how many bytes that is.
pub fn write(
    seq_no: u8,
    count: usize,
    numbers: &[u8; 63],
    sizes: &[u8; 63],
    payload: &[u8; 127],
    out: &mut [u8],
) -> Result<usize, Refusal>
    ensures answer { outcome result
        ≡ mapped (λ _. length (bytes_in (fields seq_no count numbers.now sizes.now payload.now)))
        (written (fields seq_no count numbers.now sizes.now payload.now) out.old) }
    ensures output { out.new
        ≡ after out.old (written (fields seq_no count numbers.now sizes.now payload.now) out.old) }
{
    let Some(extent) = packet_entries::extent_of(seq_no, count, numbers, sizes) else {
        return Err(Refusal::BadValue);
    };
    let n = extent.length;
    let total = written_in(n);
    if out.len() < total {
        return Err(Refusal::OutShort { needed: total });
    }
    let bytes = &payload[..];
    out[0] = header_byte(seq_no, n);
    put_blocks(numbers, sizes, bytes, count, out);
    put_fill(out, n);
    Ok(total)
}

// How many bytes a packet of length `n` is written in.
fn written_in(n: usize) -> usize
    requires { n ≤ 128 }
    ensures { result ≡ cond (eqb n 0) 1 (n + n % 2) }
{
    if n == 0 {
        return 1;
    }
    n + n % 2
}

// The header byte of a packet of length `n`.
fn header_byte(seq_no: u8, n: usize) -> u8
    requires { (seq_no ≤ 3) × (n ≤ 128) }
    ensures { result ≡ seq_no * 64 + (n + 1) / 2 % 64 }
{
    seq_no * 64 + ((n + 1) / 2 % 64) as u8
}

// Lays the blocks one behind the other into `out`, from its second byte on.
fn put_blocks(numbers: &[u8; 63], sizes: &[u8; 63], payload: &[u8], count: usize, out: &mut [u8])
    requires { Writable (entries count numbers.now sizes.now) count (length payload.now) }
    ensures { out.new ≡ sets out.old 1 (written_blocks (cut (entries count numbers.now sizes.now) payload.now)) }
{
    let mut at: usize = 1;
    let mut from: usize = 0;
    for i in 0..count {
        let number = numbers[i];
        let size = sizes[i];
        let end = from + size as usize;
        put_block(out, at, number, size, &payload[from..end]);
        at += service_headers::written_header_length(number) + size as usize;
        from = end;
    }
}

// Lays a block into `out`, from `at` on, as far as there is room.
fn put_block(out: &mut [u8], at: usize, number: u8, size: u8, part: &[u8])
    requires { (at ≤ 128) × (size ≡ length part.now) × (size ≤ 31) }
    ensures { out.new ≡ sets out.old at (written_block (block_from number part.now)) }
{
    let start = service_headers::written_header_length(number);
    service_headers::put_header(out, at, number, size);
    put_bytes(out, at + start, part);
}

// Lays the byte that fills an odd length `n` behind that many bytes, where there is room.
fn put_fill(out: &mut [u8], n: usize)
    ensures { out.new ≡ sets out.old n (fill n) }
{
    if n % 2 == 1 {
        if n < out.len() {
            out[n] = 0;
        }
    }
}
