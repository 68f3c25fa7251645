//! Caption distribution packets, SMPTE ST 334-2: frames written as packets, packets read back as frames, and the rates by their codes.
#![tactic(auto)]

ghost use Rattle.std.specs.Prelude.{◌≡◌, ◌+◌, ◌*◌, ◌≤◌, ◌<◌, length, OnErr};
ghost use Rattle.std.proofs.Math.Option.{none};
ghost use Rattle.caption.specs.Answers.{outcome};
ghost use Rattle.model.specs.Said.{mapped, after};
ghost use Rattle.model.specs.Distribution.{rate_of, takes};
ghost use Rattle.distribution.specs.Rates.{coded_rates, coded_rate};
ghost use Rattle.distribution.specs.States.{last_of, fresh_reader, reader_at, fresh_writer, writer_at};
ghost use Rattle.distribution.specs.Calls.{read_by, told_of, written_by};
ghost use Rattle.distribution.specs.Frames.{frame_laid};

use caption::{Framerate, Refusal};
use distribution_numbers::is_coded;

/// A reader of packets, by the counter of the packet that it accepted last.
#[derive(Clone, Copy, Debug, PartialEq, Eq)]
pub struct DistributionReader {
    pub last: Option<u16>,
}

/// What a reader tells of a packet: its rate by its code, its counter, and how many bytes of the lent output are its frame.
#[derive(Clone, Copy, Debug, PartialEq, Eq)]
pub struct Received {
    pub code: u8,
    pub counter: u16,
    pub len: usize,
}

/// A writer of packets: the next one has this counter.
#[derive(Clone, Copy, Debug, PartialEq, Eq)]
pub struct DistributionWriter {
    pub next: u16,
}

/// The rates that have codes, from 1 on [L2].
pub fn coded_rates() -> [Framerate; 8]
    ensures { result ≡ coded_rates }
{
    [
        Framerate {
            numer: 24000,
            denom: 1001,
        },
        Framerate::FPS_24,
        Framerate::FPS_25,
        Framerate::FPS_29_97,
        Framerate {
            numer: 30,
            denom: 1,
        },
        Framerate::FPS_50,
        Framerate::FPS_59_94,
        Framerate {
            numer: 60,
            denom: 1,
        },
    ]
}

/// The rate of a code [L2]. Refused with `BadSection` where no rate has it.
pub fn rate_of(code: u8) -> Result<Framerate, Refusal>
    ensures { outcome result ≡ mapped coded_rate (rate_of code) }
{
    if !is_coded(code) {
        return Err(Refusal::BadSection);
    }
    let rates = coded_rates();
    Ok(rates[(code - 1) as usize])
}

impl DistributionReader {
    /// A fresh reader, which takes any first counter [L5].
    pub fn new() -> Self
        ensures state { last_of result.last ≡ none }
        ensures places { result ≡ fresh_reader }
    {
        DistributionReader { last: None }
    }

    /// Reads a packet, and lays its frame into what is lent [L4] to [L6]. Refused, in this order: `BadMark`, `BadSection`, `BadSum`, `CountersDiffer`,
    /// `NotNewer`, and `OutShort` where the frame does not fit.
    pub fn read(&mut self, packet: &[u8], out: &mut [u8]) -> Result<Received, Refusal>
        ensures answer { outcome result ≡ mapped told_of (read_by self.old packet.now out.old) }
        ensures state { last_of self.new.last ≡
            after (last_of self.old.last) (mapped (λ x. x.last) (read_by self.old packet.now out.old)) }
        ensures places { self.new ≡ after self.old
            (mapped (λ x. reader_at x.packet.counter) (read_by self.old packet.now out.old)) }
        ensures output { out.new ≡ after out.old (mapped (λ x. x.out) (read_by self.old packet.now out.old)) }
        ensures kept { OnErr result (self.new ≡ self.old) }
        ensures unwritten { OnErr result (out.new ≡ out.old) }
    {
        let held = distribution_reading::open(packet)?;
        if !self.takes(held.counter) {
            return Err(Refusal::NotNewer);
        }
        let len = 3 * held.count + 2;
        if out.len() < len {
            return Err(Refusal::OutShort { needed: len });
        }
        lay_frame(packet, held.count, out);
        self.last = Some(held.counter);
        Ok(Received {
            code: held.code,
            counter: held.counter,
            len,
        })
    }

    // Whether a counter is newer than the last; any is, where there is none yet.
    fn takes(&self, counter: u16) -> bool
        ensures { result ≡ takes (last_of self.now.last) counter }
    {
        match self.last {
            None => true,
            Some(last) => distribution_numbers::newer(last, counter),
        }
    }
}

impl DistributionWriter {
    /// A fresh writer: its first packet has counter 0 [L5].
    pub fn new() -> Self
        ensures { result ≡ fresh_writer }
    {
        DistributionWriter { next: 0 }
    }

    /// Writes a frame as the next packet, at the rate of a code, to what is lent, and answers how many bytes it has [L3]. Refused: `BadSection` where the
    /// frame is not whole or no rate has the code, then `OutShort`.
    pub fn write(&mut self, code: u8, frame: &[u8], out: &mut [u8]) -> Result<usize, Refusal>
        ensures answer { outcome result ≡
            mapped (λ x. length x.bytes) (written_by self.old code frame.now out.old) }
        ensures places { self.new ≡ after self.old
            (mapped (λ x. writer_at x.next) (written_by self.old code frame.now out.old)) }
        ensures output { out.new ≡ after out.old (mapped (λ x. x.out) (written_by self.old code frame.now out.old)) }
        ensures kept { OnErr result (self.new ≡ self.old) }
        ensures unwritten { OnErr result (out.new ≡ out.old) }
    {
        let len = distribution_writing::write_packet(self.next, code, frame, out)?;
        self.next = distribution_numbers::counter_after(self.next);
        Ok(len)
    }
}

// Lays the frame of a packet with so many triples at the front of what is lent.
fn lay_frame(packet: &[u8], count: usize, out: &mut [u8])
    requires count_bound { count < 32 }
    requires count_in_bounds { 9 + 3 * count ≤ length packet.now }
    requires count_in_bounds_2 { 3 * count + 2 ≤ length out.old }
    ensures { out.new ≡ frame_laid count packet.now out.old }
{
    let end = 9 + 3 * count;
    out[0] = 0xC0 + count as u8;
    out[1] = 0xFF;
    out[2..3 * count + 2].copy_from_slice(&packet[9..end]);
}
