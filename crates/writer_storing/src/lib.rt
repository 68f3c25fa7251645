// A packet pushed to a multiplexer: the slot that it is written into.
#![tactic(auto)]

ghost use Rattle.std.specs.Prelude.{◌≡◌, ◌+◌, length, OnErr};
ghost use Rattle.std.proofs.lemmas.List.Edits.{sets};
ghost use Rattle.model.specs.Said.{after, mapped};
ghost use Rattle.caption.specs.Answers.{outcome};
ghost use Rattle.writer_storing.specs.Placing.{placing};

use basics::MOST_PACKETS;
use caption::Refusal;
use packet::DTVCCPacket;
use slots::Slot;

/// Writes a packet into the first free slot, where `count` are taken, and answers how many are then
/// [W10]. One without blocks takes none, on a full queue too; 11 for one that breaks a limit, else
/// 10 where no slot is free, and then every slot stays as it was.
pub fn place(packets: &mut [Slot; 16], count: usize, packet: &DTVCCPacket) -> Result<usize, Refusal>
    ensures taken { outcome result ≡ mapped (λ slots. count + length slots) (placing count packet.now) }
    ensures places { packets.new ≡ after packets.old (mapped (sets packets.old count) (placing count packet.now)) }
    ensures kept { OnErr result (packets.new ≡ packets.old) }
{
    let len = packet.len()?;
    if len == 0 {
        return Ok(count);
    }
    if MOST_PACKETS <= count {
        return Err(Refusal::Full);
    }
    let slot = &mut packets[count];
    slot.len = len;
    slot.bytes = [0; 128];
    // it has at most 128 bytes, and so it fits
    let _ = packet.write(&mut slot.bytes);
    Ok(count + 1)
}
