// The operations of a script: a record names one by its letter, and its argument bytes follow. Each lays its line into a lent buffer from a place
// on.
#![tactic(auto)]

ghost use Rattle.std.specs.Prelude.{◌≡◌};
ghost use Rattle.script_answers.specs.Steps.{Did};
ghost use Rattle.script_operations.specs.Ran.{fresh_machine, on_machines, ran};

use packet::DTVCCPacket;
use parser::CCDataParser;
use script_answers::put_bad_line;
use script_distribution::Link;
use service::Service;
use writer::CCDataWriter;

/// What the operations work on: a block, a packet, a demultiplexer, a multiplexer, and a reader and
/// a writer of distribution packets.
#[derive(Clone, Copy)]
pub struct Machine {
    pub s: Service,
    pub p: DTVCCPacket,
    pub r: CCDataParser,
    pub w: CCDataWriter,
    pub link: Link,
}

/// What the operations work on at first.
pub fn fresh() -> Machine
    ensures { result ≡ fresh_machine }
{
    let s = Service::new(1).unwrap();
    let p = DTVCCPacket::new(0).unwrap();
    let r = CCDataParser::new();
    let w = CCDataWriter::new();
    let link = script_distribution::fresh();
    Machine { s, p, r, w, link }
}

// An operation on one of the machines, or one that there is not.
fn run_on_machines(out: &mut [u8], at: usize, m: &mut Machine, op: u8, args: &[u8]) -> usize
    ensures { Did (on_machines m.old op args.now) out.old at result m.new out.new }
{
    if let Some(laid) = script_parsers::on_parser(out, at, &mut m.r, op, args) {
        return laid;
    }
    if let Some(laid) = script_writers::on_writer(out, at, &m.p, &mut m.w, op, args) {
        return laid;
    }
    if let Some(laid) = script_distribution::on_link(out, at, &mut m.link, op, args) {
        return laid;
    }
    put_bad_line(out, at)
}

/// Runs one record, an operation and its argument bytes, and lays its line; answers the place behind
/// it.
pub fn run_record(out: &mut [u8], at: usize, m: &mut Machine, record: &[u8]) -> usize
    ensures { Did (ran m.old «record».now) out.old at result m.new out.new }
{
    let [op, args @ ..] = record else {
        return put_bad_line(out, at);
    };
    if let Some(laid) = script_blocks::on_block(out, at, &mut m.s, *op, args) {
        return laid;
    }
    if let Some(laid) = script_codes::on_codes(out, at, &m.s, &mut m.p, *op, args) {
        return laid;
    }
    run_on_machines(out, at, m, *op, args)
}
