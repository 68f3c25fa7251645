// A DTVCC packet: its sequence number and its blocks, how it is read, written and pushed to.
#![tactic(auto)]

ghost use Rattle.std.specs.Prelude.{◌≡◌, ◌==◌, length, take, drop, OnErr};
ghost use Rattle.caption.specs.Answers.{outcome};
ghost use Rattle.model.specs.Said.{says, after, mapped};
ghost use Rattle.model.specs.Packet.{packet_size, read_packet, read_tidy, new_packet, packet_length, packet_room};
ghost use Rattle.model.specs.Packet as model;
ghost use Rattle.model.specs.Services.{services_of, distinct_services};
ghost use Rattle.packet_entries.specs.Fields.{fields};
ghost use Rattle.packet_pushes.specs.Pushing.{spills};
ghost use Rattle.packet.specs.Packet.{packet_of, laid, left, valid_dtvcc, asked};
ghost use Rattle.packet.specs.Packet.{pushed_block, pushed_run, pushed_single, bytes_of, written};
ghost use Rattle.packet.specs.Place.{blocks_at, handed};
ghost use Rattle.packet.specs.Replies.{agrees, packet_from, filled_from, pushed_by};

use basics::MOST_PACKET;
use caption::Refusal;
use packet_blocks::Filled;
use packet_moves::{Plain, Tidy};
use packet_pushes::Form;
use service::Service;

/// A packet: block i has number `numbers[i]` and the next `sizes[i]` bytes of `payload`. Bit k of
/// `services` is 1 where a block has number k. One that breaks a limit can be built; every call
/// on it is refused with `BadValue`.
#[derive(Clone, Copy, Debug, PartialEq, Eq)]
pub struct DTVCCPacket {
    pub seq_no: u8,
    pub count: usize,
    pub services: u64,
    pub numbers: [u8; 63],
    pub sizes: [u8; 63],
    pub payload: [u8; 127],
}

impl DTVCCPacket {
    /// A packet without blocks [P14]. Refused with `BadNumber` where `seq_no` is above 3.
    #[tactic(auto, using(crate::proofs::Measures::new_bad))]
    pub fn new(seq_no: u8) -> Result<DTVCCPacket, Refusal>
        ensures answer { mapped packet_of (outcome result) ≡ new_packet seq_no }
        ensures places { outcome result ≡ mapped laid (new_packet seq_no) }
    {
        if 3 < seq_no {
            return Err(Refusal::BadNumber);
        }
        Ok(DTVCCPacket {
            seq_no,
            count: 0,
            services: 0,
            numbers: [0u8; 63],
            sizes: [0u8; 63],
            payload: [0u8; 127],
        })
    }

    /// The sequence number of the packet [P1].
    pub fn sequence_no(&self) -> Result<u8, Refusal>
        ensures { outcome result ≡ asked self.now (λ p. p.sequence) }
    {
        self.check()?;
        Ok(self.seq_no)
    }

    /// How many bytes more the packet has room for [P9].
    pub fn free_space(&self) -> Result<usize, Refusal>
        ensures { outcome result ≡ asked self.now packet_room }
    {
        let length = self.len()?;
        Ok(MOST_PACKET - length)
    }

    /// The length of the packet in bytes; 0 without blocks [P7].
    pub fn len(&self) -> Result<usize, Refusal>
        ensures { outcome result ≡ asked self.now packet_length }
    {
        if !self.services_agree() {
            return Err(Refusal::BadValue);
        }
        match packet_entries::extent_of(self.seq_no, self.count, &self.numbers, &self.sizes) {
            Some(extent) => Ok(extent.length),
            None => Err(Refusal::BadValue),
        }
    }

    /// Whether the packet has no blocks [P1].
    pub fn is_empty(&self) -> Result<bool, Refusal>
        ensures { outcome result ≡ asked self.now (λ p. length p.blocks == 0) }
    {
        self.check()?;
        Ok(self.count == 0)
    }

    /// How many blocks the packet has [P1].
    pub fn service_count(&self) -> Result<usize, Refusal>
        ensures { outcome result ≡ asked self.now (λ p. length p.blocks) }
    {
        self.check()?;
        Ok(self.count)
    }

    /// The set of the packet's services: bit k for service k [P15].
    pub fn service_set(&self) -> Result<u64, Refusal>
        ensures { outcome result ≡ asked self.now services_of }
    {
        self.check()?;
        Ok(self.services)
    }

    /// How many services the packet has: as many as its set has ones [P16].
    pub fn distinct_services(&self) -> Result<usize, Refusal>
        ensures { outcome result ≡ asked self.now distinct_services }
    {
        self.check()?;
        Ok(packet_services::how_many(self.services))
    }

    /// The block at a place; none behind the last [P1].
    pub fn service(&self, place: usize) -> Result<Option<Service>, Refusal>
        ensures { outcome result ≡ mapped handed (asked self.now (blocks_at place)) }
    {
        self.check()?;
        if self.count <= place {
            return Ok(None);
        }
        Ok(Some(packet_entries::block_at(&self.numbers, &self.sizes, &self.payload, place)))
    }

    /// Pushes a block behind the others [P10]. Refused with `EmptyService` where it has no payload,
    /// and with `WouldOverflow` where the packet has no room for it.
    pub fn push_service(&mut self, service: &Service) -> Result<(), Refusal>
        ensures answer { says (outcome result) ≡ says (pushed_block service.now self.old) }
        ensures state { packet_of self.new ≡ after (packet_of self.old) (pushed_block service.now self.old) }
        ensures places { self.new ≡ left self.old (pushed_block service.now self.old) }
        ensures kept { OnErr result (self.new ≡ self.old) }
    {
        if !self.services_agree() {
            return Err(Refusal::BadValue);
        }
        let count = packet_pushes::push_block(
            service,
            self.seq_no,
            self.count,
            &mut self.numbers,
            &mut self.sizes,
            &mut self.payload,
        )?;
        self.hold(count);
        Ok(())
    }

    /// Pushes a code, a run of bytes, to the latest block of its number that has room, or as a new
    /// block [P11] [P12]. Refused with `BadNumber`, `BadRun`, `ReadOnly` for service 0, and with
    /// `WouldOverflow` where the packet has no room for it.
    pub fn push_code(&mut self, service_no: u8, code: &[u8]) -> Result<(), Refusal>
        ensures answer { says (outcome result) ≡ says (pushed_run service_no code.now self.old) }
        ensures state { packet_of self.new ≡ after (packet_of self.old) (pushed_run service_no code.now self.old) }
        ensures places { self.new ≡ left self.old (pushed_run service_no code.now self.old) }
        ensures kept { OnErr result (self.new ≡ self.old) }
    {
        self.push_run(Form::Spill, service_no, code)
    }

    /// Pushes a code to the latest block of its number; a new block is made only where there is
    /// none [P13]. Refused as `push_code` is, and where that block has no room for it.
    pub fn push_code_into_single_service(
        &mut self,
        service_no: u8,
        code: &[u8],
    ) -> Result<(), Refusal>
        ensures answer { says (outcome result) ≡ says (pushed_single service_no code.now self.old) }
        ensures state { packet_of self.new
            ≡ after (packet_of self.old) (pushed_single service_no code.now self.old) }
        ensures places { self.new ≡ left self.old (pushed_single service_no code.now self.old) }
        ensures kept { OnErr result (self.new ≡ self.old) }
    {
        self.push_run(Form::Single, service_no, code)
    }

    /// Reads a packet as the crate does: data may be shorter than its header says [P2] to [P6].
    /// Refused where it is longer, and where a block is cut short.
    pub fn parse(data: &[u8]) -> Result<DTVCCPacket, Refusal>
        ensures answer { mapped packet_of (outcome result) ≡ read_packet «data».now }
        ensures places { outcome result ≡ mapped laid (read_packet «data».now) }
    {
        let mut filled = packet_blocks::unfilled();
        packet_reading::read_into::<Plain>(data, &mut filled)?;
        Ok(filled_from(&filled))
    }

    /// Reads the packet that the first `len` bytes are, as `parse` does; at most 128 are there
    /// [P2] to [P6].
    pub fn parse_in(bytes: &[u8; 128], len: usize) -> Result<DTVCCPacket, Refusal>
        ensures answer { mapped packet_of (outcome result) ≡ read_packet (take len bytes.now) }
        ensures places { outcome result ≡ mapped laid (read_packet (take len bytes.now)) }
    {
        DTVCCPacket::parse(packet_moves::front(bytes, len))
    }

    /// Reads a packet whose length is what its header says, block by whole block up to a null
    /// header [T1] to [T3]. Refused at any other length, and where a block is cut short.
    pub fn parse_tidy(data: &[u8]) -> Result<DTVCCPacket, Refusal>
        ensures answer { mapped packet_of (outcome result) ≡ read_tidy «data».now }
        ensures places { outcome result ≡ mapped laid (read_tidy «data».now) }
    {
        let mut filled = packet_blocks::unfilled();
        packet_reading::read_into::<Tidy>(data, &mut filled)?;
        Ok(filled_from(&filled))
    }

    /// Writes the packet to a lent output; answers how many bytes that is [P8] [R9]. Refused with
    /// `OutShort` where the output is shorter, and the output then stays.
    pub fn write(&self, out: &mut [u8]) -> Result<usize, Refusal>
        ensures answer { outcome result ≡ mapped (λ _. length (bytes_of self.now)) (written self.now out.old) }
        ensures output { out.new ≡ after out.old (written self.now out.old) }
        ensures kept { OnErr result (out.new ≡ out.old) }
    {
        if !self.services_agree() {
            return Err(Refusal::BadValue);
        }
        packet_writing::write(
            self.seq_no,
            self.count,
            &self.numbers,
            &self.sizes,
            &self.payload,
            out,
        )
    }

    /// Whether the packet breaks no limit [P1] [P15].
    pub fn is_valid(&self) -> bool
        ensures { result ≡ valid_dtvcc self.now }
    {
        self.len().is_ok()
    }

    // The test at the head of each call.
    fn check(&self) -> Result<(), Refusal>
        ensures { outcome result ≡ asked self.now (λ _. tt) }
    {
        if self.is_valid() {
            return Ok(());
        }
        Err(Refusal::BadValue)
    }

    // Whether the set is that of the numbers of the blocks.
    fn services_agree(&self) -> bool
        ensures { result ≡ agrees self.now }
    {
        self.services == packet_services::services_to(&self.numbers, self.count)
    }

    // Pushes a run in one of its two forms.
    fn push_run(&mut self, form: Form, service_no: u8, code: &[u8]) -> Result<(), Refusal>
        ensures answer { says (outcome result) ≡ says (pushed_by (spills form) service_no code.now self.old) }
        ensures state { packet_of self.new
            ≡ after (packet_of self.old) (pushed_by (spills form) service_no code.now self.old) }
        ensures places { self.new ≡ left self.old (pushed_by (spills form) service_no code.now self.old) }
        ensures kept { OnErr result (self.new ≡ self.old) }
    {
        if !self.services_agree() {
            return Err(Refusal::BadValue);
        }
        let count = packet_pushes::push_run(
            form,
            service_no,
            code,
            self.seq_no,
            self.count,
            &mut self.numbers,
            &mut self.sizes,
            &mut self.payload,
        )?;
        self.hold(count);
        Ok(())
    }

    // Holds the first `count` blocks of its places.
    fn hold(&mut self, count: usize)
        ensures { self.new
            ≡ packet_from
            (fields self.old.seq_no count self.old.numbers self.old.sizes self.old.payload) }
    {
        self.count = count;
        self.services = packet_services::services_to(&self.numbers, count);
    }
}

/// How many bytes a packet whose first byte is `h` has in all [P2].
pub fn packet_size(h: u8) -> usize
    ensures { result ≡ packet_size h }
{
    packet_moves::packet_size(h)
}

/// Whether the first `len` bytes read as a packet; at most 128 are there [F10].
pub fn reads_in(bytes: &[u8; 128], len: usize) -> bool
    ensures { result ≡ model.reads (take len bytes.now) }
{
    packet_moves::reads_in(bytes, len)
}

// The packet of the places that a reading filled.
fn filled_from(r: &Filled) -> DTVCCPacket
    ensures { result ≡ filled_from r.now }
{
    DTVCCPacket {
        seq_no: r.seq_no,
        count: r.count,
        services: packet_services::services_to(&r.numbers, r.count),
        numbers: r.numbers,
        sizes: r.sizes,
        payload: r.payload,
    }
}
