// Writes a thousand frames for each byte of its input at about 30000/1001 with both paddings on, to set the time beside the crate's
// (`oracle/src/bin/write_speed.rs`). The rate of a frame depends on the first byte, which is to be 0, and on the frame before it, so that its budgets
// have to be worked out in each write. A pair of each field goes in before each frame, and a packet of 40 bytes before nine frames of ten: as much as
// the frames carry away. The line written is how many bytes the frames have and a sum over each of them, so that no writing can be left out, and both
// programs write the same.
#![tactic(auto)]

ghost use Rattle.std.specs.Prelude.{◌≡◌, ◌≤◌, length, IfOk, OnErr};

use basics::MOST_FRAME;
use caption::{Cea608, Framerate, Refusal};
use packet::DTVCCPacket;
use service::Service;
use std::io;
use std::io::Read;
use writer::CCDataWriter;

// The pairs of a thousand frames.
const PAIRS: usize = 2000;

// The bytes of every frame so far, and the sum over them.
#[derive(Clone, Copy)]
struct Totals {
    bytes: u64,
    sum: u64,
}

// A byte as a number.
fn wide(b: u8) -> u64 {
    b as u64
}

// 31 times the sum and x, without the carry.
fn mix(sum: u64, x: u64) -> u64 {
    let most = (sum % 576460752303423488) * 32;
    most.wrapping_sub(sum).wrapping_add(x)
}

// The totals with a frame of n bytes.
fn with_bytes(t: Totals, frame: &[u8; 95], n: usize) -> Totals {
    let mut sum = t.sum;
    let mut i: usize = 0;
    while i < MOST_FRAME {
        if n <= i {
            return Totals {
                bytes: t.bytes.wrapping_add(n as u64),
                sum,
            };
        }
        sum = mix(sum, wide(frame[i]));
        i += 1;
    }
    Totals {
        bytes: t.bytes.wrapping_add(n as u64),
        sum,
    }
}

// The totals with a frame that was written; a refused one adds nothing.
fn with_frame(t: Totals, frame: &[u8; 95], written: Result<usize, Refusal>) -> Totals {
    match written {
        Ok(n) => with_bytes(t, frame, n),
        Err(_) => t,
    }
}

// A block of 12 bytes.
fn block(number: u8) -> Result<Service, Refusal> {
    let mut block = Service::new(number)?;
    block.push_code(b"twelve bytes")?;
    Ok(block)
}

// A packet of three blocks.
fn packet(i: usize, blocks: &[Service; 3]) -> Result<DTVCCPacket, Refusal> {
    let mut packet = DTVCCPacket::new((i % 4) as u8)?;
    packet.push_service(&blocks[0])?;
    packet.push_service(&blocks[1])?;
    packet.push_service(&blocks[2])?;
    Ok(packet)
}

// The pairs that go in: of field 1, and then of field 2, before each frame.
fn pair(i: usize) -> Cea608 {
    let byte = 0x20 + (i / 2 % 64) as u8;
    if i % 2 == 0 {
        return Cea608::Field1(byte, 0x31);
    }
    Cea608::Field2(0x32, byte)
}

// Whether a packet goes in before frame i. A frame takes 18 of its 20 triples, so the first 20 packets leave two of them waiting.
fn due(i: usize) -> bool {
    if i < 20 {
        return true;
    }
    0 < i % 10
}

// A multiplexer with both paddings on.
fn started() -> Result<CCDataWriter, Refusal> {
    let mut writer = CCDataWriter::new();
    writer.set_output_cea608_padding(true)?;
    writer.set_output_padding(true)?;
    Ok(writer)
}

// The rate of a frame, by the first byte of the input and the last of the frame before it: two pairs and 20 triples, where the first is 0.
fn rate_by(first: u8, last: u8) -> Framerate {
    let more = first as u32 * 65536;
    Framerate::new(30000 + more + last as u32, 1001 + more)
}

// The totals of the frames that so many pairs go into.
fn write_frames(first: u8, pairs: usize) -> Result<Totals, Refusal> {
    let blocks = [block(1)?, block(2)?, block(3)?];
    let mut writer = started()?;
    let mut frame = [0u8; 95];
    let mut t = Totals { bytes: 0, sum: 0 };
    let mut i: usize = 0;
    while i < pairs {
        let _ = writer.push_cea608(pair(i));
        if i % 2 == 1 {
            if due(i / 2) {
                let _ = writer.push_packet(&packet(i / 2, &blocks)?);
            }
            let written = writer.write(rate_by(first, frame[61]), &mut frame);
            t = with_frame(t, &frame, written);
        }
        i += 1;
    }
    Ok(t)
}

// Reads until `buf` is full or the input ends: how many bytes are at its front.
fn read_full(rt: &HostRuntime, buf: &mut [u8]) -> io::Result<usize>
    ensures ok { IfOk result (λ n. n ≤ length buf.new) }
    ensures err { OnErr result (length buf.new ≡ length buf.old) }
{
    let mut done = 0;
    while done < buf.len() {
        let n = rt.stdin().read(&mut buf[done..])?;
        if n == 0 {
            return Ok(done);
        }
        done += n;
    }
    Ok(done)
}

fn main(rt: HostRuntime) -> io::Result<()> {
    let mut input = [0u8; 4096];
    let asked = read_full(&rt, &mut input)?;
    match write_frames(input[0], PAIRS * asked) {
        Ok(t) => println!(rt; "{} {}", t.bytes, t.sum),
        Err(_) => println!(rt; "refused"),
    }
}
