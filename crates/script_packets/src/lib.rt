// The operations of a script, by their letters, on its packet: each makes its call, or sets fields, and lays the line that tells of it into a lent
// buffer from a place on.
#![tactic(auto)]

ghost use Rattle.std.specs.Prelude.{◌≡◌};
ghost use Rattle.caption.specs.Answers.{outcome};
ghost use Rattle.service.specs.Service.{block_of};
ghost use Rattle.packet.specs.Packet.{valid_dtvcc, bytes_of};
ghost use Rattle.program_text.specs.Laid.{Laid};
ghost use Rattle.program_lines.specs.Lines.{block_text};
ghost use Rattle.script_answers.specs.Steps.{Did, written_line};
ghost use Rattle.script_answers.specs.Rows.{sought, Tried};
ghost use Rattle.script_packets.specs.Lines.{measured_packet, blocks_text, blocks_in, held_text, held_line};
ghost use Rattle.script_packets.specs.Packets.{renews_packet, pushes_block, pushes_run, pushes_single, reads_plainly, reads_tidily};
ghost use Rattle.script_packets.specs.Packets.{sets_packet, sets_services, packet_rows};

use basics::MOST_BLOCKS;
use caption::Refusal;
use packet::DTVCCPacket;
use program_records::part;
use program_text::{put_newline, put_word};
use script_services::{put_services_line, set_in};
use service::Service;

// A block of a packet, as `number:payload`.
fn put_block(out: &mut [u8], at: usize, block: &Service) -> usize
    ensures { Laid (block_text block.now.number (block_of block.now).payload) out.old at result out.new }
{
    let payload = &block.payload[..];
    program_lines::put_block(out, at, block.number, part(payload, 0, block.len))
}

// The blocks of a packet.
fn put_blocks(out: &mut [u8], at: usize, packet: &DTVCCPacket) -> usize
    ensures { Laid (blocks_text (blocks_in packet.now)) out.old at result out.new }
{
    let mut laid = put_word(out, at, b"");
    for place in 0..MOST_BLOCKS {
        let Ok(Some(block)) = packet.service(place) else {
            return laid;
        };
        laid = put_block(out, laid, &block);
    }
    laid
}

/// The sequence number of a packet and its blocks.
pub fn put_packet(out: &mut [u8], at: usize, packet: &DTVCCPacket) -> usize
    ensures { Laid (held_text packet.now) out.old at result out.new }
{
    let p = program_lines::put_value(out, at, packet.seq_no as u64);
    put_blocks(out, p, packet)
}

// A packet that was read.
fn put_held_line(out: &mut [u8], at: usize, packet: &DTVCCPacket) -> usize
    ensures { Laid (held_line packet.now) out.old at result out.new }
{
    let p = put_word(out, at, b"ok");
    let q = put_packet(out, p, packet);
    put_newline(out, q)
}

// A new packet, where the call accepts.
fn new_packet(out: &mut [u8], at: usize, packet: &mut DTVCCPacket, sequence: u8) -> usize
    ensures { Did (renews_packet sequence packet.old) out.old at result packet.new out.new }
{
    match DTVCCPacket::new(sequence) {
        Ok(made) => {
            *packet = made;
            script_answers::put_ok_line(out, at)
        }
        Err(why) => script_answers::put_refusal_line(out, at, why),
    }
}

// A block pushed to the packet.
fn push_block(out: &mut [u8], at: usize, packet: &mut DTVCCPacket, block: &Service) -> usize
    ensures { Did (pushes_block block.now packet.old) out.old at result packet.new out.new }
{
    let answer = packet.push_service(block);
    script_answers::put_done_line(out, at, answer)
}

// A run pushed to the packet.
fn push_run(out: &mut [u8], at: usize, packet: &mut DTVCCPacket, number: u8, run: &[u8]) -> usize
    ensures { Did (pushes_run number run.now packet.old) out.old at result packet.new out.new }
{
    let answer = packet.push_code(number, run);
    script_answers::put_done_line(out, at, answer)
}

// A run pushed to the packet, in the single-service form.
fn push_single(out: &mut [u8], at: usize, packet: &mut DTVCCPacket, number: u8, run: &[u8]) -> usize
    ensures { Did (pushes_single number run.now packet.old) out.old at result packet.new out.new }
{
    let answer = packet.push_code_into_single_service(number, run);
    script_answers::put_done_line(out, at, answer)
}

// A packet read plainly out of bytes, where the call accepts.
fn read_packet(out: &mut [u8], at: usize, packet: &mut DTVCCPacket, bytes: &[u8]) -> usize
    ensures { Did (reads_plainly bytes.now packet.old) out.old at result packet.new out.new }
{
    match DTVCCPacket::parse(bytes) {
        Ok(read) => {
            *packet = read;
            put_held_line(out, at, packet)
        }
        Err(why) => script_answers::put_refusal_line(out, at, why),
    }
}

// A packet read tidily out of bytes, where the call accepts.
fn read_tidily(out: &mut [u8], at: usize, packet: &mut DTVCCPacket, bytes: &[u8]) -> usize
    ensures { Did (reads_tidily bytes.now packet.old) out.old at result packet.new out.new }
{
    match DTVCCPacket::parse_tidy(bytes) {
        Ok(read) => {
            *packet = read;
            put_held_line(out, at, packet)
        }
        Err(why) => script_answers::put_refusal_line(out, at, why),
    }
}

// Two fields of the packet set, whatever they break.
fn set_packet(out: &mut [u8], at: usize, packet: &mut DTVCCPacket, sequence: u8, count: u8) -> usize
    ensures { Did (sets_packet sequence count packet.old) out.old at result packet.new out.new }
{
    packet.seq_no = sequence;
    packet.count = count as usize;
    script_answers::put_ok_line(out, at)
}

// The packet's set becomes that of eight bytes, whatever it breaks.
fn set_services(out: &mut [u8], at: usize, packet: &mut DTVCCPacket, services: u64) -> usize
    ensures { Did (sets_services services packet.old) out.old at result packet.new out.new }
{
    packet.services = services;
    script_answers::put_ok_line(out, at)
}

// The packet measured: sequence number, length, room, blocks.
fn measured_packet(packet: &DTVCCPacket) -> Result<[usize; 4], Refusal>
    ensures { outcome result ≡ measured_packet packet.now }
{
    let sequence = packet.sequence_no()?;
    let length = packet.len()?;
    let room = packet.free_space()?;
    let blocks = packet.service_count()?;
    Ok([sequence as usize, length, room, blocks])
}

// The packet written to an output of so many bytes, which is told whole.
fn put_written_packet(out: &mut [u8], at: usize, packet: &DTVCCPacket, len: u8) -> usize
    ensures { Laid (written_line (valid_dtvcc packet.now) (bytes_of packet.now) len)
        out.old at result out.new }
{
    let mut lent = [0xA5u8; 255];
    let front = &mut lent[..len as usize];
    let answer = packet.write(front);
    script_answers::put_written_line(out, at, answer, front)
}

/// An operation on the packet, to which the block can be pushed, by its letter and its argument
/// bytes: the place behind the line that tells of it, or `None` for one that there is not, which
/// does nothing.
#[tactic(auto, unfolding(crate::specs::Packets::packet_rows, crate::specs::Packets::pushing_rows, crate::specs::Packets::telling_rows, script_answers::specs::Rows::sought))]
pub fn on_packet(
    out: &mut [u8],
    at: usize,
    block: &Service,
    packet: &mut DTVCCPacket,
    op: u8,
    args: &[u8],
) -> Option<usize>
    ensures { Tried (sought (packet_rows block.now packet.old) op args.now)
        packet.old out.old at result packet.new out.new }
{
    match (op, args) {
        (b'k', [sequence]) => Some(new_packet(out, at, packet, *sequence)),
        (b'p', bytes) => Some(read_packet(out, at, packet, bytes)),
        (b't', bytes) => Some(read_tidily(out, at, packet, bytes)),
        (b'K', [sequence, count]) => Some(set_packet(out, at, packet, *sequence, *count)),
        (b'Z', bytes) if bytes.len() == 8 => Some(set_services(out, at, packet, set_in(bytes))),
        (b'v', []) => Some(push_block(out, at, packet, block)),
        (b'a', [number, run @ ..]) => Some(push_run(out, at, packet, *number, run)),
        (b'i', [number, run @ ..]) => Some(push_single(out, at, packet, *number, run)),
        (b'l', []) => Some(script_answers::put_measures_line(out, at, measured_packet(packet))),
        (b'o', [len]) => Some(put_written_packet(out, at, packet, *len)),
        (b'z', []) => Some(put_services_line(out, at, packet)),
        _ => None,
    }
}
