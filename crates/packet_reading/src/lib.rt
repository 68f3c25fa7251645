// A packet read from bytes into its places: the test of its length comes first, and its blocks tell the rest.
#![tactic(auto)]

ghost use Rattle.std.specs.Prelude.{◌≡◌, take, OnErr};
ghost use Rattle.caption.specs.Answers.{outcome, said_refusal};
ghost use Rattle.model.specs.Said.{mapped, packet_length_wrong};
ghost use Rattle.model.specs.Packet.{read_by};
ghost use Rattle.packet_blocks.specs.Reading.{filled_with, unfilled};

use caption::Refusal;
use packet_blocks::Filled;
use packet_moves::Way;

/// Reads the packet that bytes are, plainly or tidily. Refused where their number is wrong (13), or
/// where a block is cut short (14, 15).
pub fn read<W: Way>(data: &[u8]) -> Result<Filled, Refusal>
    ensures { outcome result ≡ mapped filled_with (read_by W.way «data».now) }
{
    let mut packet = packet_blocks::unfilled();
    read_into::<W>(data, &mut packet)?;
    Ok(packet)
}

/// Reads as `read` does, into lent places, whatever they hold; zeros are left in all of them where
/// it refuses.
pub fn read_into<W: Way>(data: &[u8], packet: &mut Filled) -> Result<(), Refusal>
    ensures read { mapped (λ _. packet.new) (outcome result)
        ≡ mapped filled_with (read_by W.way «data».now) }
    ensures zeros { OnErr result (packet.new ≡ unfilled) }
{
    let n = data.len();
    if n == 0 {
        *packet = packet_blocks::unfilled();
        return Err(length_wrong(1, n));
    }
    let size = packet_moves::packet_size(data[0]);
    if W::is_wrong(size, n) {
        *packet = packet_blocks::unfilled();
        return Err(length_wrong(size, n));
    }
    packet_blocks::fill_into::<W>(data, packet)
}

/// Reads the packet that the first `len` bytes are, as `read` does; at most 128 are there.
pub fn read_in<W: Way>(bytes: &[u8; 128], len: usize) -> Result<Filled, Refusal>
    ensures { outcome result ≡ mapped filled_with (read_by W.way (take len bytes.now)) }
{
    read::<W>(packet_moves::front(bytes, len))
}

// Why a packet of this length is refused: it stands at offset 0.
fn length_wrong(expected: usize, actual: usize) -> Refusal
    ensures { said_refusal result ≡ packet_length_wrong expected actual 0 }
{
    Refusal::PacketLengthWrong {
        expected,
        actual,
        offset: 0,
    }
}
