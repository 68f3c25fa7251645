// The multiplexer: packets and CEA-608 pairs in, frames of `cc_data` out.
#![tactic(auto)]

ghost use Rattle.std.specs.Prelude.{◌≡◌, length, OnErr};
ghost use Rattle.model.specs.Said.{gave, says, after, mapped, checked};
ghost use Rattle.model.specs.Mux.{fresh_mux, paddings, carrying_mode, true_counting};
ghost use Rattle.model.specs.Duration.{field1_duration, field2_duration, packet_duration};
ghost use Rattle.caption.specs.Answers.{outcome};
ghost use Rattle.writer.specs.Writer.{means, Shaped, valid_writer, fresh, stored, emptied, moved};
ghost use Rattle.writer.specs.Calls.{placed, switch_outcome, pair_outcome, packet_outcome, flush_outcome, written};
ghost use Rattle.writer.specs.Making.{source_of, carry_after};

use caption::{Cea608, Framerate, Refusal};
use packet::DTVCCPacket;
use slots::{Slot, slots_written};
use writer_building::Source;
use writer_queues::PairQueue;
use writer_sending::{move_down, packets_duration};
use writer_shares::Carry;
use writer_storing::place;

/// The multiplexer: the two paddings, the queue of packets, the packet being sent and how many of
/// its bytes have left, each field's queue, whether field 2 has the next turn, the true count, and
/// the carrying mode with the carried parts. One that breaks a limit can be built; every call on it
/// is refused with `BadValue` and leaves it as it was.
#[derive(Clone, Copy)]
pub struct CCDataWriter {
    pub output_cea608_padding: bool,
    pub output_padding: bool,
    pub packet_count: usize,
    pub packets: [Slot; 16],
    pub sending: Slot,
    pub sent: usize,
    pub field1: PairQueue,
    pub field2: PairQueue,
    pub field2_next: bool,
    pub true_count: bool,
    pub carrying: bool,
    pub carry: Carry,
}

impl CCDataWriter {
    /// A multiplexer with nothing queued, and every switch off [W4] [W12] [W15] [W17].
    pub fn new() -> CCDataWriter
        ensures state { means result ≡ fresh_mux }
        ensures places { result ≡ fresh }
    {
        let slot = Slot {
            len: 0,
            bytes: [0; 128],
        };
        let queue = PairQueue {
            bytes: [0; 128],
            count: 0,
        };
        CCDataWriter {
            output_cea608_padding: false,
            output_padding: false,
            packet_count: 0,
            packets: [slot; 16],
            sending: slot,
            sent: 0,
            field1: queue,
            field2: queue,
            field2_next: false,
            true_count: false,
            carrying: false,
            carry: Carry::NONE,
        }
    }

    /// Whether the state is within its limits [W14].
    pub fn is_valid(&self) -> bool
        ensures value { result ≡ valid_writer self.now }
        ensures shaped { Shaped self.now }
    {
        self.is_within()
    }

    /// Sets whether to output padding CEA-608 bytes where not enough has been pushed [W12].
    pub fn set_output_cea608_padding(&mut self, output_cea608_padding: bool) -> Result<(), Refusal>
        ensures answer { says (outcome result)
            ≡ says (switch_outcome (paddings output_cea608_padding self.old.output_padding) self.old) }
        ensures state { means self.new
            ≡ after (means self.old) (switch_outcome (paddings output_cea608_padding self.old.output_padding) self.old) }
        ensures places { self.new ≡ placed stored self.old (switch_outcome (paddings output_cea608_padding self.old.output_padding) self.old) }
        ensures kept { OnErr result (self.new ≡ self.old) }
    {
        self.check()?;
        self.output_cea608_padding = output_cea608_padding;
        Ok(())
    }

    /// Whether padding CEA-608 bytes are output [W12].
    pub fn output_cea608_padding(&self) -> Result<bool, Refusal>
        ensures { outcome result ≡ checked (valid_writer self.now) (gave self.now.output_cea608_padding) }
    {
        self.check()?;
        Ok(self.output_cea608_padding)
    }

    /// Sets whether to output padding triples up to the most that a frame holds [W12].
    pub fn set_output_padding(&mut self, output_padding: bool) -> Result<(), Refusal>
        ensures answer { says (outcome result)
            ≡ says (switch_outcome (paddings self.old.output_cea608_padding output_padding) self.old) }
        ensures state { means self.new
            ≡ after (means self.old) (switch_outcome (paddings self.old.output_cea608_padding output_padding) self.old) }
        ensures places { self.new ≡ placed stored self.old (switch_outcome (paddings self.old.output_cea608_padding output_padding) self.old) }
        ensures kept { OnErr result (self.new ≡ self.old) }
    {
        self.check()?;
        self.output_padding = output_padding;
        Ok(())
    }

    /// Whether padding triples are output [W12].
    pub fn output_padding(&self) -> Result<bool, Refusal>
        ensures { outcome result ≡ checked (valid_writer self.now) (gave self.now.output_padding) }
    {
        self.check()?;
        Ok(self.output_padding)
    }

    /// Sets whether budgets are carried from frame to frame, and not rounded in each. Turned on from
    /// off or turned off it starts the sums afresh [W15].
    pub fn set_carrying(&mut self, carrying: bool) -> Result<(), Refusal>
        ensures answer { says (outcome result) ≡ says (switch_outcome (carrying_mode carrying) self.old) }
        ensures state { means self.new ≡ after (means self.old) (switch_outcome (carrying_mode carrying) self.old) }
        ensures places { self.new ≡ placed stored self.old (switch_outcome (carrying_mode carrying) self.old) }
        ensures kept { OnErr result (self.new ≡ self.old) }
    {
        self.check()?;
        let carry = self.carry_in(carrying);
        self.carrying = carrying;
        self.carry = carry;
        Ok(())
    }

    /// Whether budgets are carried [W15].
    pub fn carrying(&self) -> Result<bool, Refusal>
        ensures { outcome result ≡ checked (valid_writer self.now) (gave self.now.carrying) }
    {
        self.check()?;
        Ok(self.carrying)
    }

    /// Sets whether the count of a frame leaves out the turns that will send nothing, so that it is
    /// the number of triples that follow [W17].
    pub fn set_true_count(&mut self, true_count: bool) -> Result<(), Refusal>
        ensures answer { says (outcome result) ≡ says (switch_outcome (true_counting true_count) self.old) }
        ensures state { means self.new ≡ after (means self.old) (switch_outcome (true_counting true_count) self.old) }
        ensures places { self.new ≡ placed stored self.old (switch_outcome (true_counting true_count) self.old) }
        ensures kept { OnErr result (self.new ≡ self.old) }
    {
        self.check()?;
        self.true_count = true_count;
        Ok(())
    }

    /// Whether it does [W17].
    pub fn true_count(&self) -> Result<bool, Refusal>
        ensures { outcome result ≡ checked (valid_writer self.now) (gave self.now.true_count) }
    {
        self.check()?;
        Ok(self.true_count)
    }

    /// Pushes a packet: it is written into the first free slot. One without blocks is taken and not
    /// kept, on a full queue too [W10].
    pub fn push_packet(&mut self, packet: &DTVCCPacket) -> Result<(), Refusal>
        ensures answer { says (outcome result) ≡ says (packet_outcome packet.now self.old) }
        ensures state { means self.new ≡ after (means self.old) (packet_outcome packet.now self.old) }
        ensures places { self.new ≡ placed stored self.old (packet_outcome packet.now self.old) }
        ensures kept { OnErr result (self.new ≡ self.old) }
        ensures lengths { (length packet.now.numbers ≡ 63) × (length packet.now.sizes ≡ 63) × (length packet.now.payload ≡ 127) }
    {
        // read first, so that the lengths of its arrays are known on every way out
        let _count = packet.count;
        self.check()?;
        let taken = place(&mut self.packets, self.packet_count, packet)?;
        self.packet_count = taken;
        Ok(())
    }

    /// Pushes a CEA-608 byte pair [W11].
    pub fn push_cea608(&mut self, cea608: Cea608) -> Result<(), Refusal>
        ensures answer { says (outcome result) ≡ says (pair_outcome cea608 self.old) }
        ensures state { means self.new ≡ after (means self.old) (pair_outcome cea608 self.old) }
        ensures places { self.new ≡ placed stored self.old (pair_outcome cea608 self.old) }
        ensures kept { OnErr result (self.new ≡ self.old) }
    {
        self.check()?;
        match cea608 {
            Cea608::Field1(a, b) => {
                self.field1 = self.field1.push(a, b)?;
                Ok(())
            }
            Cea608::Field2(a, b) => {
                self.field2 = self.field2.push(a, b)?;
                Ok(())
            }
        }
    }

    /// Drops what is queued and the packet being sent, and starts the sums afresh [W13].
    pub fn flush(&mut self) -> Result<(), Refusal>
        ensures answer { says (outcome result) ≡ says (flush_outcome self.old) }
        ensures state { means self.new ≡ after (means self.old) (flush_outcome self.old) }
        ensures places { self.new ≡ placed emptied self.old (flush_outcome self.old) }
        ensures kept { OnErr result (self.new ≡ self.old) }
    {
        self.check()?;
        self.packet_count = 0;
        self.sending.len = 0;
        self.sent = 0;
        self.field1.count = 0;
        self.field2.count = 0;
        self.carry = Carry::NONE;
        Ok(())
    }

    /// How long the pairs queued for field 1 take to leave, in microseconds [D1].
    pub fn buffered_cea608_field1_duration(&self) -> Result<u64, Refusal>
        ensures { outcome result ≡ checked (valid_writer self.now) (gave (field1_duration (means self.now))) }
    {
        self.check()?;
        Ok(self.field1.duration())
    }

    /// How long the pairs queued for field 2 take to leave, in microseconds [D1].
    pub fn buffered_cea608_field2_duration(&self) -> Result<u64, Refusal>
        ensures { outcome result ≡ checked (valid_writer self.now) (gave (field2_duration (means self.now))) }
    {
        self.check()?;
        Ok(self.field2.duration())
    }

    /// How long the packets queued, and what is left of the packet being sent, take to leave, in
    /// microseconds [D2] [D3].
    pub fn buffered_packet_duration(&self) -> Result<u64, Refusal>
        ensures { outcome result ≡ checked (valid_writer self.now) (gave (packet_duration (means self.now))) }
    {
        self.check()?;
        Ok(packets_duration(&self.packets, self.packet_count, &self.sending, self.sent))
    }

    /// Writes the next frame at a rate: 608 pairs by turns, then packet triples [W1] to [W9], with the
    /// count that its switch asks for [W17]. Answers how many bytes the frame has.
    #[tactic(auto, unfolding(crate::specs::Calls::written))]
    pub fn write(&mut self, rate: Framerate, out: &mut [u8]) -> Result<usize, Refusal>
        ensures answer { outcome result ≡ mapped (λ x. length x.frame) (written rate out.old self.old) }
        ensures state { means self.new ≡ after (means self.old) (mapped (λ x. x.next) (written rate out.old self.old)) }
        ensures places { self.new ≡ after self.old (mapped (λ x. moved self.old x.next) (written rate out.old self.old)) }
        ensures output { out.new ≡ after out.old (mapped (λ x. x.out) (written rate out.old self.old)) }
        ensures kept { OnErr result (self.new ≡ self.old) }
        ensures unwritten { OnErr result (out.new ≡ out.old) }
    {
        self.check()?;
        let share = self.carry.share(self.carrying, rate)?;
        let made = self.source().make(&self.packets, share);
        let needed = made.frame.len;
        if out.len() < needed {
            return Err(Refusal::OutShort { needed });
        }
        made.frame.emit(out);
        move_down(&mut self.packets, self.packet_count, made.next);
        self.packet_count -= made.next;
        self.sending = made.slot;
        self.sent = made.sent;
        self.field1 = made.field1;
        self.field2 = made.field2;
        self.field2_next = made.field2_next;
        self.carry = made.carry;
        Ok(needed)
    }

    // The test at the head of each call, and the lengths of the arrays.
    fn check(&self) -> Result<(), Refusal>
        ensures answer { outcome result ≡ checked (valid_writer self.now) (gave tt) }
        ensures shaped { Shaped self.now }
    {
        if self.is_within() {
            return Ok(());
        }
        Err(Refusal::BadValue)
    }

    // The same test.
    fn is_within(&self) -> bool
        ensures value { result ≡ valid_writer self.now }
        ensures shaped { Shaped self.now }
    {
        let first = self.field1.is_valid();
        let second = self.field2.is_valid();
        if !first {
            return false;
        }
        if !second {
            return false;
        }
        if !self.carry.is_valid() {
            return false;
        }
        slots_written(&self.sending, self.sent, &self.packets, self.packet_count)
    }

    // The parts once the mode is set: they stay where it was on and is turned on, else there are none.
    fn carry_in(&self, carrying: bool) -> Carry
        ensures { result ≡ carry_after carrying self.now }
    {
        if carrying {
            if self.carrying {
                return self.carry;
            }
        }
        Carry::NONE
    }

    // What the next frame is made of beside the slots.
    fn source(&self) -> Source
        ensures { result ≡ source_of self.now }
    {
        Source {
            pad: self.output_cea608_padding,
            padding: self.output_padding,
            true_count: self.true_count,
            carry: self.carry,
            field1: self.field1,
            field2: self.field2,
            field2_next: self.field2_next,
            queued: self.packet_count,
            slot: self.sending,
            sent: self.sent,
        }
    }
}
