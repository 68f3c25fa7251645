//! One block's way through both machines: pushed into a packet, the packet into a multiplexer, a
//! frame written, the frame read and the packet drawn again. Then the same where a turn sends
//! nothing, without and with the true count; runs of caption codes, whole and cut; the first frame
//! once more, by way of a distribution packet; and a proposal for three runs, as the packer makes
//! it and spoilt.
#![tactic(auto)]

use caption::{Cea608, Framerate, Refusal};
use distribution::{DistributionReader, DistributionWriter};
use packet::DTVCCPacket;
use parser::{CCDataParser, Item};
use std::io;
use writer::CCDataWriter;

// A packet in which service 1 says "A".
fn one_block() -> Result<DTVCCPacket, Refusal> {
    let mut packet = DTVCCPacket::new(2)?;
    packet.push_code(1, b"A")?;
    Ok(packet)
}

// Writes the frame of a multiplexer that carries fractions and holds the packet; answers its length.
fn write_one(frame: &mut [u8]) -> Result<usize, Refusal> {
    let mut writer = CCDataWriter::new();
    writer.set_carrying(true)?;
    writer.push_packet(&one_block()?)?;
    writer.write(Framerate::new(30, 1), frame)
}

// Reads a frame, and draws its first item.
fn read_one(frame: &[u8]) -> Result<Item, Refusal> {
    let mut parser = CCDataParser::new();
    parser.push(frame)?;
    Ok(parser.draw()?.item)
}

// The frame of one that keeps both paddings off and holds two pairs of field 1 and the packet. Two
// turns are due: the second, field 2's, sends nothing.
fn write_pairs(frame: &mut [u8], true_count: bool) -> Result<usize, Refusal> {
    let mut writer = CCDataWriter::new();
    writer.set_true_count(true_count)?;
    writer.push_cea608(Cea608::Field1(0x94, 0x2C))?;
    writer.push_cea608(Cea608::Field1(0x94, 0x2C))?;
    writer.push_packet(&one_block()?)?;
    writer.write(Framerate::new(30, 1), frame)
}

// A frame as a distribution packet, of code 5: 30 frames a second.
fn send_one(frame: &[u8], packet: &mut [u8]) -> Result<usize, Refusal> {
    let mut writer = DistributionWriter::new();
    writer.write(5, frame, packet)
}

// The frame of a distribution packet: how many bytes it has.
fn receive_one(packet: &[u8], frame: &mut [u8]) -> Result<usize, Refusal> {
    let mut reader = DistributionReader::new();
    Ok(reader.read(packet, frame)?.len)
}

// The first `n` bytes.
fn part(bytes: &[u8], n: usize) -> &[u8] {
    bytes.get(..n).unwrap_or(bytes)
}

// What comes back of the packet alone.
fn alone() -> Result<Item, Refusal> {
    let mut frame = [0u8; 95];
    let n = write_one(&mut frame)?;
    read_one(part(&frame, n))
}

// What comes back behind two pairs.
fn behind_pairs(true_count: bool) -> Result<Item, Refusal> {
    let mut frame = [0u8; 95];
    let n = write_pairs(&mut frame, true_count)?;
    read_one(part(&frame, n))
}

// What comes back by way of a distribution packet.
fn distributed() -> Result<Item, Refusal> {
    let mut frame = [0u8; 95];
    let mut packet = [0u8; 106];
    let n = write_one(&mut frame)?;
    let sent = send_one(part(&frame, n), &mut packet)?;
    let received = receive_one(part(&packet, sent), &mut frame)?;
    read_one(part(&frame, received))
}

// Proposes packets for runs of 20, 10 and 11 bytes for services 1, 7 and 1, and has the proposal checked.
fn propose_three(pieces: &mut [u8; 15]) -> Result<(), Refusal> {
    let services = [1, 7, 1];
    let lengths = [20, 10, 11];
    packing::propose(&services, &lengths, pieces)?;
    packing::check(&services, &lengths, pieces)
}

// The same with its last piece in a block of another service.
fn spoil(pieces: &mut [u8; 15]) -> Result<(), Refusal> {
    pieces[14] = 1;
    packing::check(&[1, 7, 1], &[20, 10, 11], pieces)
}

// Says what came back.
fn told(item: Result<Item, Refusal>) -> &'static str {
    match item {
        Ok(Item::Packet) => "the packet came back",
        _ => "the packet is lost",
    }
}

// Says what a run is.
fn told_run(run: Result<(), Refusal>) -> &'static str {
    if run.is_ok() {
        "whole codes"
    } else {
        "not whole codes"
    }
}

// Says what is thought of a proposal.
fn told_proposal(proposal: Result<(), Refusal>) -> &'static str {
    if proposal.is_ok() {
        "accepted"
    } else {
        "refused"
    }
}

fn main(rt: HostRuntime) -> io::Result<()> {
    println!(rt; "{}", told(alone()))?;
    println!(rt; "behind two pairs: {}", told(behind_pairs(false)))?;
    println!(rt;
        "behind two pairs, with the true count: {}",
        told(behind_pairs(true))
    )?;
    println!(rt;
        "a code of three bytes: {}",
        told_run(codes::check_run(b"\x92\x01\x02"))
    )?;
    println!(rt;
        "its first two: {}",
        told_run(codes::check_run(b"\x92\x01"))
    )?;
    println!(rt; "in a distribution packet: {}", told(distributed()))?;
    let mut pieces = [0u8; 15];
    println!(rt; "a proposal: {}", told_proposal(propose_three(&mut pieces)))?;
    println!(rt;
        "its last piece in a block of another service: {}",
        told_proposal(spoil(&mut pieces))
    )
}
