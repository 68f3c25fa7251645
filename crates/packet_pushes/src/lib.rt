// Blocks and runs pushed to the three arrays of a packet.
#![tactic(auto)]

ghost use Rattle.std.specs.Prelude.{◌≡◌, ◌&&◌, [], ◌∷◌, ◌-◌, ◌≤◌, ◌<◌, length, ltb};
ghost use Rattle.packet_entries.specs.Fields.{fields, arrays, block_from};
ghost use Rattle.packet_entries.specs.Extent.{Sized};
ghost use Rattle.packet_blocks.specs.Reading.{LaidIn};
ghost use Rattle.packet_pushes.specs.Pushing.{Stores, Extends, RoomAt, spills};
ghost use Rattle.packet_pushes.specs.Pushing.{pushed_new, pushed_at, pushed_block, pushed_run};

use basics::{MOST_NUMBER, MOST_PACKET, MOST_PAYLOAD, put_bytes};
use caption::Refusal;
use packet_blocks::Kept;
use packet_entries::Extent;
use service::Service;

/// What becomes of a run for which the latest block of its service has no room.
#[derive(Clone, Copy, Debug, PartialEq, Eq)]
pub enum Form {
    /// A new block is made of it [P11] [P12].
    Spill,
    /// It is refused: a service has a single block [P13].
    Single,
}

impl Form {
    // Whether a new block is made of a run of `n` bytes where the latest has room for `left` bytes.
    fn makes_new(self, left: usize, n: usize) -> bool
        ensures { result ≡ (spills self && ltb left n) }
    {
        match self {
            Form::Spill => left < n,
            Form::Single => false,
        }
    }
}

/// Pushes a block behind the others; answers how many blocks there then are. A refusal leaves the
/// arrays as they were.
pub fn push_block(
    service: &Service,
    seq_no: u8,
    count: usize,
    numbers: &mut [u8; 63],
    sizes: &mut [u8; 63],
    payload: &mut [u8; 127],
) -> Result<usize, Refusal>
    ensures { Stores (pushed_block service.now)
        (fields seq_no count numbers.old sizes.old payload.old)
        result (arrays numbers.new sizes.new payload.new) }
{
    let Some(extent) = packet_entries::extent_of(seq_no, count, numbers, sizes) else {
        return Err(Refusal::BadValue);
    };
    if !service.is_valid() {
        return Err(Refusal::BadValue);
    }
    if service.len == 0 {
        return Err(Refusal::EmptyService);
    }
    let bytes = &service.payload[..];
    push_new(
        seq_no,
        count,
        extent,
        service.number,
        &bytes[0..service.len],
        numbers,
        sizes,
        payload,
    )
}

/// Pushes a run to the latest block of its number, or as a new block; answers how many blocks there
/// then are. A refusal leaves the arrays as they were.
pub fn push_run(
    form: Form,
    service_no: u8,
    code: &[u8],
    seq_no: u8,
    count: usize,
    numbers: &mut [u8; 63],
    sizes: &mut [u8; 63],
    payload: &mut [u8; 127],
) -> Result<usize, Refusal>
    ensures { Stores (pushed_run (spills form) service_no code.now)
        (fields seq_no count numbers.old sizes.old payload.old)
        result (arrays numbers.new sizes.new payload.new) }
{
    let Some(extent) = packet_entries::extent_of(seq_no, count, numbers, sizes) else {
        return Err(Refusal::BadValue);
    };
    if MOST_NUMBER < service_no {
        return Err(Refusal::BadNumber);
    }
    if code.len() == 0 {
        return Err(Refusal::BadRun);
    }
    let Some(place) = packet_entries::latest(numbers, count, service_no) else {
        return push_new(
            seq_no, count, extent, service_no, code, numbers, sizes, payload,
        );
    };
    let left = block_room(sizes[place]);
    if form.makes_new(left, code.len()) {
        return push_new(
            seq_no, count, extent, service_no, code, numbers, sizes, payload,
        );
    }
    push_at(seq_no, count, extent, place, code, numbers, sizes, payload)
}

// Pushes a run as a new block, where the packet has room for it.
fn push_new(
    seq_no: u8,
    count: usize,
    extent: Extent,
    service_no: u8,
    code: &[u8],
    numbers: &mut [u8; 63],
    sizes: &mut [u8; 63],
    payload: &mut [u8; 127],
) -> Result<usize, Refusal>
    requires sized { Sized (fields seq_no count numbers.old sizes.old payload.old) extent.length extent.used }
    requires some { 1 ≤ length code.now }
    requires known { service_no ≤ 63 }
    ensures { Stores (pushed_new service_no code.now) (fields seq_no count numbers.old sizes.old payload.old)
        result (arrays numbers.new sizes.new payload.new) }
{
    let n = code.len();
    if service_no == 0 {
        return Err(Refusal::ReadOnly);
    }
    if MOST_PAYLOAD < n {
        return Err(Refusal::WouldOverflow(n - MOST_PAYLOAD));
    }
    let room = MOST_PACKET - extent.length;
    let needed = service_headers::block_length(service_no, n as u8);
    if room < needed {
        return Err(Refusal::WouldOverflow(needed - room));
    }
    let at = Kept {
        count,
        used: extent.used,
    };
    put_entry(service_no, code, at, numbers, sizes, payload);
    Ok(count + 1)
}

// Pushes a run to the block at `place`, where the packet and the block have room for it.
fn push_at(
    seq_no: u8,
    count: usize,
    extent: Extent,
    place: usize,
    code: &[u8],
    numbers: &[u8; 63],
    sizes: &mut [u8; 63],
    payload: &mut [u8; 127],
) -> Result<usize, Refusal>
    requires sized { Sized (fields seq_no count numbers.now sizes.old payload.old) extent.length extent.used }
    requires there { place < count }
    ensures { Stores (pushed_at place code.now) (fields seq_no count numbers.now sizes.old payload.old)
        result (arrays numbers.now sizes.new payload.new) }
{
    let n = code.len();
    let room = MOST_PACKET - extent.length;
    if room < n {
        return Err(Refusal::WouldOverflow(n - room));
    }
    let left = block_room(sizes[place]);
    if left < n {
        return Err(Refusal::WouldOverflow(n - left));
    }
    extend(extent.used, place, code, sizes, payload);
    Ok(count)
}

// How many bytes more a block with `size` bytes of payload has room for.
fn block_room(size: u8) -> usize
    ensures { result ≡ 31 - size }
{
    MOST_PAYLOAD.saturating_sub(size as usize)
}

// Lays a run behind the payload of the block at `place`: the payloads behind it move up.
fn extend(used: usize, place: usize, run: &[u8], sizes: &mut [u8; 63], payload: &mut [u8; 127])
    requires { RoomAt sizes.old used place (length run.now) }
    ensures { Extends used place run.now sizes.old payload.old sizes.new payload.new }
{
    // The payloads behind move up over themselves, so they are taken from a copy: the kit has no `copy_within`.
    let old = *payload;
    let n = run.len();
    let before = packet_entries::sum_of(sizes, place + 1);
    let size = sizes[place];
    sizes[place] = size + n as u8;
    put_bytes(payload, before, run);
    put_bytes(payload, before + n, &old[before..used]);
}

// Stores a block as block `count`, with its payload from `used` on.
fn put_entry(
    number: u8,
    run: &[u8],
    at: Kept,
    numbers: &mut [u8; 63],
    sizes: &mut [u8; 63],
    payload: &mut [u8; 127],
)
    requires { (at.count ≤ 62) × (length run.now ≤ 31) }
    ensures { LaidIn (block_from number run.now ∷ []) at (arrays numbers.old sizes.old payload.old) (arrays numbers.new sizes.new payload.new) }
{
    let count = at.count;
    let used = at.used;
    numbers[count] = number;
    sizes[count] = run.len() as u8;
    put_bytes(payload, used, run);
}
