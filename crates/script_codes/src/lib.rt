//! The operations of a script, by their letters, that cut payloads into codes: some bytes, or every block of the packet. Each lays the line that tells
//! of it into a lent buffer from a place on, answers the place behind the line, and leaves the packet.
#![tactic(auto)]

ghost use Rattle.std.specs.Prelude.{◌≡◌, length};
ghost use Rattle.service.specs.Service.{block_of};
ghost use Rattle.codes_cuts.specs.Cuts.{cut_of};
ghost use Rattle.program_text.specs.Laid.{Laid};
ghost use Rattle.program_lines.specs.Lines.{values_text};
ghost use Rattle.script_answers.specs.Rows.{sought, Tried};
ghost use Rattle.script_packets.specs.Lines.{each_text, blocks_in};
ghost use Rattle.script_codes.specs.Lines.{lengths_of, given_line, cut_line, count_text, counts_line, counted_line};
ghost use Rattle.script_codes.specs.Operations.{codes_rows};

use basics::MOST_BLOCKS;
use packet::DTVCCPacket;
use program_lines::put_value;
use program_records::part;
use program_text::{put_newline, put_word};
use service::Service;

// The lengths of the codes of a payload that has so many.
fn put_lengths(out: &mut [u8], at: usize, payload: &[u8], count: usize) -> usize
    requires { count ≡ length (cut_of payload.now) }
    ensures { Laid (values_text (lengths_of (cut_of payload.now))) out.old at result out.new }
{
    let mut laid = put_word(out, at, b"");
    for i in 0..count {
        let code = codes::code_at(payload, i);
        laid = put_value(out, laid, code.len() as u64);
    }
    laid
}

// The same on a line of their own.
fn put_lengths_line(out: &mut [u8], at: usize, payload: &[u8], count: usize) -> usize
    requires { count ≡ length (cut_of payload.now) }
    ensures { Laid (given_line (lengths_of (cut_of payload.now))) out.old at result out.new }
{
    let p = put_word(out, at, b"ok");
    let q = put_lengths(out, p, payload, count);
    put_newline(out, q)
}

// Bytes cut into codes, or why they are not.
fn put_cut_line(out: &mut [u8], at: usize, payload: &[u8]) -> usize
    ensures { Laid (cut_line payload.now) out.old at result out.new }
{
    match codes::code_count(payload) {
        Ok(n) => put_lengths_line(out, at, payload, n),
        Err(why) => script_answers::put_refusal_line(out, at, why),
    }
}

// How many codes a block has; 0 where its payload is refused.
fn count_in(block: &Service) -> u64
    ensures { result ≡ length (cut_of (block_of block.now).payload) }
{
    let payload = &block.payload[..];
    match codes::code_count(part(payload, 0, block.len)) {
        Ok(n) => n as u64,
        Err(_) => 0,
    }
}

// How many each block of a packet has.
fn put_counts(out: &mut [u8], at: usize, packet: &DTVCCPacket) -> usize
    ensures { Laid (each_text count_text (blocks_in packet.now)) out.old at result out.new }
{
    let mut laid = put_word(out, at, b"");
    for place in 0..MOST_BLOCKS {
        let Ok(Some(block)) = packet.service(place) else {
            return laid;
        };
        laid = put_value(out, laid, count_in(&block));
    }
    laid
}

// The same on a line of their own.
fn put_counts_line(out: &mut [u8], at: usize, packet: &DTVCCPacket) -> usize
    ensures { Laid (counts_line (blocks_in packet.now)) out.old at result out.new }
{
    let p = put_word(out, at, b"ok");
    let q = put_counts(out, p, packet);
    put_newline(out, q)
}

// Every block of a packet cut into codes, or why one is not.
fn put_counted_line(out: &mut [u8], at: usize, packet: &DTVCCPacket) -> usize
    ensures { Laid (counted_line packet.now) out.old at result out.new }
{
    match codes::check_packet(packet) {
        Ok(()) => put_counts_line(out, at, packet),
        Err(why) => script_answers::put_refusal_line(out, at, why),
    }
}

/// An operation that cuts payloads into codes, or one on the packet, by its letter and its argument bytes: the place behind the line that tells of it, or
/// `None` for one that there is not, which does nothing.
#[tactic(auto, unfolding(crate::specs::Operations::codes_rows, script_answers::specs::Rows::sought))]
pub fn on_codes(
    out: &mut [u8],
    at: usize,
    block: &Service,
    packet: &mut DTVCCPacket,
    op: u8,
    args: &[u8],
) -> Option<usize>
    ensures { Tried (sought (codes_rows block.now packet.old) op args.now)
        packet.old out.old at result packet.new out.new }
{
    match (op, args) {
        (b'g', bytes) => Some(put_cut_line(out, at, bytes)),
        (b'G', []) => Some(put_counted_line(out, at, packet)),
        _ => script_packets::on_packet(out, at, block, packet, op, args),
    }
}
