//! The profile that knows how long codes are: a payload, a run, a block and a packet cut into codes, and runs pushed so that blocks are cut only
//! between codes. Below it a payload is bytes and no more.
#![tactic(auto)]

ghost use Rattle.std.specs.Prelude.{◌≡◌, [], ◌≤◌, get_or, drop, OnErr};
ghost use Rattle.caption.specs.Answers.{outcome};
ghost use Rattle.model.specs.Said.{says, mapped, after, checked};
ghost use Rattle.model.specs.Codes.{code_in, codes_of, codes_of_each, codes_of_blocks};
ghost use Rattle.service.specs.Service.{block_of, valid_service};
ghost use Rattle.packet.specs.Packet.{packet_of, valid_dtvcc, left};
ghost use Rattle.codes_cuts.specs.Cuts.{how_many, cut_of};
ghost use Rattle.codes.specs.Payloads.{payloads_held, screened};
ghost use Rattle.codes.specs.Pushed.{pushed_codes, pushed_codes_single};

use basics::MOST_NUMBER;
use caption::Refusal;
use packet::DTVCCPacket;
use service::Service;

/// How many bytes the code has that begins at byte `at` of a payload [K3]. Refused: `UnknownLength`, or `CodeCutShort`, also at the payload's end and
/// behind it, where no code begins.
pub fn code_length_at(payload: &[u8], at: usize) -> Result<usize, Refusal>
    ensures { outcome result ≡ code_in (drop at payload.now) }
{
    codes_cuts::code_length_at(payload, at)
}

/// How many codes a payload has [K4]. Refused as `code_length_at` refuses the first that is none.
pub fn code_count(payload: &[u8]) -> Result<usize, Refusal>
    ensures { outcome result ≡ mapped how_many (codes_of payload.now) }
{
    codes_cuts::code_count(payload)
}

/// The code at a place, as a part of the payload; an empty part where the payload is refused or has no code there [K4].
pub fn code_at(payload: &[u8], place: usize) -> &[u8]
    ensures { result.now ≡ get_or (cut_of payload.now) place [] }
{
    codes_cuts::code_at(payload, place)
}

/// Whether a run is codes without remainder [K4]. Refused as `code_count` is.
pub fn check_run(run: &[u8]) -> Result<(), Refusal>
    ensures { says (outcome result) ≡ says (codes_of run.now) }
{
    codes_cuts::code_count(run)?;
    Ok(())
}

/// Whether the payload of a block is [K6]. Refused with `BadValue` where the block breaks a limit.
pub fn check_service(service: &Service) -> Result<(), Refusal>
    ensures { says (outcome result) ≡
        says (checked (valid_service service.now) (codes_of (block_of service.now).payload)) }
{
    if !service.is_valid() {
        return Err(Refusal::BadValue);
    }
    check_run(&service.payload[0..service.len])
}

/// Whether the payload of each block of a packet is; the first block that is refused tells the refusal [K6]. Refused with `BadValue` where the packet
/// breaks a limit.
pub fn check_packet(packet: &DTVCCPacket) -> Result<(), Refusal>
    ensures { says (outcome result) ≡
        says (checked (valid_dtvcc packet.now) (codes_of_blocks (packet_of packet.now).blocks)) }
{
    if !packet.is_valid() {
        return Err(Refusal::BadValue);
    }
    check_payloads(&packet.sizes, &packet.payload, packet.count)
}

/// Pushes a run to a packet as `push_code` does, if it is codes without remainder [K7]. Refused: `BadValue`, `BadNumber`, then as `check_run` is,
/// then as `push_code` is.
pub fn push_codes(packet: &mut DTVCCPacket, service_no: u8, run: &[u8]) -> Result<(), Refusal>
    ensures answer { says (outcome result) ≡ says (pushed_codes service_no run.now packet.old) }
    ensures state { packet_of packet.new ≡
        after (packet_of packet.old) (pushed_codes service_no run.now packet.old) }
    ensures places { packet.new ≡ left packet.old (pushed_codes service_no run.now packet.old) }
    ensures kept { OnErr result (packet.new ≡ packet.old) }
{
    screen(packet, service_no, run)?;
    packet.push_code(service_no, run)
}

/// Pushes a run to a packet in the single-service form, if it is codes without remainder [K7]. Refused: `BadValue`, `BadNumber`, then as `check_run`
/// is, then as `push_code_into_single_service` is.
pub fn push_codes_into_single_service(
    packet: &mut DTVCCPacket,
    service_no: u8,
    run: &[u8],
) -> Result<(), Refusal>
    ensures answer { says (outcome result) ≡ says (pushed_codes_single service_no run.now packet.old) }
    ensures state { packet_of packet.new ≡
        after (packet_of packet.old) (pushed_codes_single service_no run.now packet.old) }
    ensures places { packet.new ≡ left packet.old (pushed_codes_single service_no run.now packet.old) }
    ensures kept { OnErr result (packet.new ≡ packet.old) }
{
    screen(packet, service_no, run)?;
    packet.push_code_into_single_service(service_no, run)
}

// Whether the profile lets a run through to the push: 11 and 6 come before what it refuses.
fn screen(packet: &DTVCCPacket, service_no: u8, run: &[u8]) -> Result<(), Refusal>
    ensures { says (outcome result) ≡
        screened (valid_dtvcc packet.now) service_no (codes_of run.now) }
{
    let Err(why) = check_run(run) else {
        return Ok(());
    };
    let valid = packet.is_valid();
    if !valid {
        return Err(Refusal::BadValue);
    }
    if MOST_NUMBER < service_no {
        return Err(Refusal::BadNumber);
    }
    Err(why)
}

// Whether each of the first `count` payloads is codes without remainder: each is as many bytes as its size says, behind those before it.
fn check_payloads(sizes: &[u8; 63], payload: &[u8; 127], count: usize) -> Result<(), Refusal>
    requires { count ≤ 63 }
    ensures { says (outcome result) ≡ says (codes_of_each (payloads_held count sizes.now payload.now)) }
{
    let all = &payload[..];
    let mut at: usize = 0;
    for i in 0..count {
        let end = (at + sizes[i] as usize).min(all.len());
        check_run(&all[at..end])?;
        at = end;
    }
    Ok(())
}
