// The blocks of a packet read from bytes into its places.
#![tactic(auto)]

ghost use Rattle.std.specs.Prelude.{◌≡◌, ◌+◌, ◌*◌, ◌≤◌, length, get_or, take, OnErr};
ghost use Rattle.caption.specs.Answers.{outcome};
ghost use Rattle.model.specs.Said.{mapped};
ghost use Rattle.model.specs.Packet.{sequence_in};
ghost use Rattle.packet_entries.specs.Fields.{payloads_of};
ghost use Rattle.packet_moves.specs.Moves.{kept_for, packet_with, blocks_at};
ghost use Rattle.packet_blocks.specs.Reading.{filled_with, unfilled, with_blocks};

use basics::MOST_PACKET;
use caption::Refusal;
use packet_moves::Way;
use service_headers::Header;

/// The places of a packet that was read: its sequence number, how many blocks it has, their
/// numbers, the sizes of their payloads and the payloads one behind the other; zeros behind them.
#[derive(Clone, Copy)]
pub struct Filled {
    pub seq_no: u8,
    pub count: usize,
    pub numbers: [u8; 63],
    pub sizes: [u8; 63],
    pub payload: [u8; 127],
}

/// How many blocks are stored, and how many bytes of payload they have.
#[derive(Clone, Copy)]
pub struct Kept {
    pub count: usize,
    pub used: usize,
}

impl Filled {
    // Stores a block that has a payload, behind the others, with its payload from `used` on; answers
    // where the next one begins.
    fn keep(&mut self, used: usize, number: u8, part: &[u8]) -> usize
        requires small { length part.now ≤ 31 }
        requires block { 2 * self.old.count + length part.now ≤ 126 }
        requires bytes { used + length part.now ≤ 127 }
        ensures used { result ≡ used + length (payloads_of (kept_for number part.now)) }
        ensures laid { self.new ≡ with_blocks self.old used (kept_for number part.now) }
    {
        let size = part.len();
        if number == 0 {
            return used;
        }
        if size == 0 {
            return used;
        }
        self.numbers[self.count] = number;
        self.sizes[self.count] = size as u8;
        let payload = &mut self.payload[..];
        payload[used..used + size].copy_from_slice(part);
        self.count += 1;
        used + size
    }
}

/// Reads the packet of the blocks that the first 128 bytes have behind the header, whatever that
/// says of their number. Refused where a block is cut short (14, 15).
pub fn fill<W: Way>(data: &[u8]) -> Result<Filled, Refusal>
    ensures { outcome result
        ≡ mapped filled_with
        (mapped (packet_with «data».now) (blocks_at W.way (take 128 «data».now) 1)) }
{
    let mut packet = unfilled();
    fill_into::<W>(data, &mut packet)?;
    Ok(packet)
}

/// Reads as `fill` does, into lent places, whatever they hold; zeros are left in all of them where
/// it refuses.
pub fn fill_into<W: Way>(data: &[u8], packet: &mut Filled) -> Result<(), Refusal>
    ensures read { mapped (λ _. packet.new) (outcome result)
        ≡ mapped filled_with
        (mapped (packet_with «data».now) (blocks_at W.way (take 128 «data».now) 1)) }
    ensures zeros { OnErr result (packet.new ≡ unfilled) }
{
    *packet = Filled {
        seq_no: 0,
        count: 0,
        numbers: [0u8; 63],
        sizes: [0u8; 63],
        payload: [0u8; 127],
    };
    packet.seq_no = sequence_in(data);
    let n = MOST_PACKET.min(data.len());
    match read_blocks::<W>(&data[..n], 1, 0, packet) {
        Ok(()) => Ok(()),
        Err(why) => {
            *packet = unfilled();
            Err(why)
        }
    }
}

/// The places where nothing was read: zeros.
pub fn unfilled() -> Filled
    ensures { result ≡ unfilled }
{
    Filled {
        seq_no: 0,
        count: 0,
        numbers: [0u8; 63],
        sizes: [0u8; 63],
        payload: [0u8; 127],
    }
}

// The sequence number in a packet's header [P2]; 0 where there is none.
fn sequence_in(data: &[u8]) -> u8
    ensures { result ≡ sequence_in (get_or «data».now 0 0) }
{
    match data {
        [h, ..] => h / 64 % 4,
        [] => 0,
    }
}

// Reads the blocks of some bytes, from `at` on, behind those of the packet, until the reader is
// through with them; the next payload is laid from `used` on.
fn read_blocks<W: Way>(
    data: &[u8],
    at: usize,
    used: usize,
    packet: &mut Filled,
) -> Result<(), Refusal>
    requires short { length «data».now ≤ 128 }
    requires blocks { 2 * packet.old.count + 1 ≤ at }
    requires bytes { used + packet.old.count + 1 ≤ at }
    ensures { mapped (λ _. packet.new) (outcome result)
        ≡ mapped (with_blocks packet.old used) (blocks_at W.way «data».now at) }
{
    if W::through(data, at) {
        return Ok(());
    }
    let Some(
        Header {
            number,
            start,
            size,
        },
    ) = service_headers::header_at(data, at)
    else {
        return Err(service_headers::short_at(data, at));
    };
    let from = at + start;
    let next = packet.keep(used, number, &data[from..from + size]);
    read_blocks::<W>(
        data,
        at + W::moved(number, start as u8, size as u8),
        next,
        packet,
    )
}
