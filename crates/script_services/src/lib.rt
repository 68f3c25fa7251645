// The services of a packet in a script: their set as sixteen hex figures of a line, with how many they are, and a set out of eight argument bytes.
#![tactic(auto)]

ghost use Rattle.std.specs.Prelude.{◌≡◌};
ghost use Rattle.program_text.specs.Laid.{Laid};
ghost use Rattle.caption.specs.Answers.{outcome};
ghost use Rattle.script_services.specs.Sets.{highest_bytes, set_in, set_line, counted_set, services_line};

use caption::Refusal;
use packet::DTVCCPacket;
use program_records::number_at;
use program_text::{put_newline, put_word};

// A set as eight bytes, the highest first.
fn bytes_of(set: u64) -> [u8; 8]
    ensures { result ≡ highest_bytes 8 set }
{
    [
        (set / 72057594037927936 % 256) as u8,
        (set / 281474976710656 % 256) as u8,
        (set / 1099511627776 % 256) as u8,
        (set / 4294967296 % 256) as u8,
        (set / 16777216 % 256) as u8,
        (set / 65536 % 256) as u8,
        (set / 256 % 256) as u8,
        (set % 256) as u8,
    ]
}

/// The set that the first eight bytes make, the highest first; bytes past the end count as 0.
pub fn set_in(bytes: &[u8]) -> u64
    ensures { result ≡ set_in bytes.now }
{
    number_at(bytes, 0) as u64 * 4294967296 + number_at(bytes, 4) as u64
}

// A set, and how many services it has.
fn put_set_line(out: &mut [u8], at: usize, set: u64, many: u64) -> usize
    ensures { Laid (set_line set many) out.old at result out.new }
{
    let bytes = bytes_of(set);
    let p = put_word(out, at, b"ok");
    let q = program_lines::put_run(out, p, &bytes);
    let r = program_lines::put_value(out, q, many);
    put_newline(out, r)
}

// The set of a packet's services, and how many they are.
fn counted_set(packet: &DTVCCPacket) -> Result<(u64, usize), Refusal>
    ensures { outcome result ≡ counted_set packet.now }
{
    let set = packet.service_set()?;
    let many = packet.distinct_services()?;
    Ok((set, many))
}

/// The services of a packet: their set and how many they are, or the refusal of both calls.
pub fn put_services_line(out: &mut [u8], at: usize, packet: &DTVCCPacket) -> usize
    ensures { Laid (services_line packet.now) out.old at result out.new }
{
    match counted_set(packet) {
        Ok((set, many)) => put_set_line(out, at, set, many as u64),
        Err(why) => script_answers::put_refusal_line(out, at, why),
    }
}
