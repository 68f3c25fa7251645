// Reads one packet, or a thousand frames of 95 bytes, a million times, to set the time beside the crate's
// (`oracle/src/bin/read_speed.rs`). Standard input is the packet or the frames; the line written is how many items were
// read and a sum over every block and every packet's set of services, so that no reading can be left out, and both
// programs write the same.
#![tactic(auto)]

ghost use Rattle.std.specs.Prelude.{◌≡◌, ◌≤◌, length, IfOk, OnErr};

use basics::MOST_PACKET;
use packet::DTVCCPacket;
use parser::{CCDataParser, Item};
use std::io;
use std::io::Read;

// How many readings there are.
const READINGS: usize = 1000000;

// No frame leaves more to draw than 31 pairs and 32 packets, and once nothing is drawn.
const MOST_DRAWS: usize = 64000001;

// The items drawn, and the sum over their blocks and sets.
#[derive(Clone, Copy)]
struct Totals {
    items: u64,
    sum: u64,
}

// 31 times the sum and x, without the carry.
fn mix(sum: u64, x: u64) -> u64 {
    let most = (sum % 576460752303423488) * 32;
    most.wrapping_sub(sum).wrapping_add(x)
}

// What a block adds: its number, its first byte and its length.
fn worth(number: u8, first: u8, size: u8) -> u64 {
    number as u64 + first as u64 + size as u64
}

// The sum with every block of a packet.
fn with_blocks(
    count: usize,
    numbers: &[u8; 63],
    sizes: &[u8; 63],
    payload: &[u8; 127],
    before: u64,
) -> u64 {
    let mut sum = before;
    let mut i: usize = 0;
    let mut at: usize = 0;
    while i < 63 {
        if count <= i {
            return sum;
        }
        if 127 <= at {
            return sum;
        }
        let size = sizes[i];
        sum = mix(sum, worth(numbers[i], payload[at], size));
        at += usize::from(size);
        i += 1;
    }
    sum
}

// The sum with a packet.
fn with_packet(packet: &DTVCCPacket, before: u64) -> u64 {
    let sum = with_blocks(
        packet.count,
        &packet.numbers,
        &packet.sizes,
        &packet.payload,
        before,
    );
    mix(sum, packet.services)
}

// The totals of every frame: items are drawn until none is left, and then the next frame is read.
fn read_frames(frames: &[u8], parser: &mut CCDataParser) -> Totals
    requires { length frames.now ≡ 95000 }
{
    let mut items: u64 = 0;
    let mut sum: u64 = 0;
    let mut i: usize = 0;
    let mut n: usize = 0;
    while n < MOST_DRAWS {
        n += 1;
        let Ok(drawn) = parser.draw() else {
            return Totals { items, sum };
        };
        match drawn.item {
            Item::Pair(_) => {
                items = items.wrapping_add(1);
            }
            Item::Packet => {
                items = items.wrapping_add(1);
                sum = with_packet(&drawn.packet, sum);
            }
            Item::Nothing => {
                if READINGS <= i {
                    return Totals { items, sum };
                }
                let at = i % 1000 * 95;
                let end = at + 95;
                let _ = parser.push(&frames[at..end]);
                i += 1;
            }
        }
    }
    Totals { items, sum }
}

// The header with another sequence number, so that no two readings in a row are of the same bytes.
fn turned(header: u8, i: usize) -> u8 {
    header % 64 + (i % 4) as u8 * 64
}

// The sum after every reading of the first n bytes.
fn read_packets(data: &mut [u8; 95000], n: usize) -> u64
    requires { n ≤ 95000 }
{
    let mut sum: u64 = 0;
    let mut i: usize = 0;
    while i < READINGS {
        data[0] = turned(data[0], i);
        let whole = &data[..];
        sum = match DTVCCPacket::parse(&whole[0..n]) {
            Ok(packet) => with_packet(&packet, sum),
            Err(_) => mix(sum, 0),
        };
        i += 1;
    }
    sum
}

// Writes the two totals.
fn tell(rt: &HostRuntime, items: u64, sum: u64) -> io::Result<()> {
    println!(rt; "{items} {sum}")
}

// Reads until `buf` is full or the input ends: how many bytes are at its front.
fn read_full(rt: &HostRuntime, buf: &mut [u8]) -> io::Result<usize>
    ensures ok { IfOk result (λ n. n ≤ length buf.new) }
    ensures err { OnErr result (length buf.new ≡ length buf.old) }
{
    let mut done = 0;
    while done < buf.len() {
        let n = rt.stdin().read(&mut buf[done..])?;
        if n == 0 {
            return Ok(done);
        }
        done += n;
    }
    Ok(done)
}

fn main(rt: HostRuntime) -> io::Result<()> {
    let mut bytes = [0u8; 95000];
    let n = read_full(&rt, &mut bytes)?;
    if n <= MOST_PACKET {
        return tell(&rt, READINGS as u64, read_packets(&mut bytes, n));
    }
    let mut parser = CCDataParser::new();
    let _ = parser.handle_cea608();
    let t = read_frames(&bytes, &mut parser);
    tell(&rt, t.items, t.sum)
}
