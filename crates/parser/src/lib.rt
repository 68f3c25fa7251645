// The demultiplexer: frames of `cc_data` in, caption pairs and packets out.
#![tactic(auto)]

ghost use Rattle.std.specs.Prelude.{◌≡◌, length, true};
ghost use Rattle.caption.specs.Answers.{outcome, said};
ghost use Rattle.model.specs.Said.{says, says_with};
ghost use Rattle.model.specs.Demux.{fresh_demux, quiet, turn608_on, flush_demux, take_frame, draw, item_values};
ghost use Rattle.parser.specs.Means.{means};
ghost use Rattle.parser.specs.Valid.{valid};
ghost use Rattle.parser.specs.Calls.{fresh, laid_after};
ghost use Rattle.parser.specs.After.{said_of, left_by, asked};
ghost use Rattle.parser.specs.Items.{drawn_values, drawn_of};
ghost use Rattle.parser_triples.specs.Plan.{plan_of};
ghost use Rattle.parser.specs.Push.{listing_of, left_of, with_list, with_left, gather_says, gathered};

use basics::MOST_WAITING;
use caption::{Cea608, Refusal};
use packet::DTVCCPacket;
use parser_triples::Plan;
use slots::Slot;

/// A demultiplexer. The first `pair_count` pairs of the last frame not yet drawn stand in `pairs`, three places each: the field (0 or 1) and
/// two bytes. The first `pending_len` bytes of `pending` are of a packet that is not complete. `waiting_count` slots from `waiting_first` on,
/// going round, hold the packets not yet drawn. One that breaks a limit can be built; every call on it is refused with `BadValue`.
#[derive(Clone, Copy)]
pub struct CCDataParser {
    pub cea608_on: bool,
    pub pair_count: usize,
    pub pairs: [u8; 93],
    pub pending_len: usize,
    pub pending: [u8; 128],
    pub waiting_first: usize,
    pub waiting_count: usize,
    pub waiting: [Slot; 32],
}

/// What is drawn out of a demultiplexer.
#[derive(Clone, Copy)]
pub enum Item {
    /// A 608 pair.
    Pair(Cea608),
    /// The packet beside it.
    Packet,
    /// Nothing is left.
    Nothing,
}

/// An item, and the packet beside it: the empty one beside a pair or nothing.
#[derive(Clone, Copy)]
pub struct Drawn {
    pub item: Item,
    pub packet: DTVCCPacket,
}

impl CCDataParser {
    /// A fresh demultiplexer: 608 is off, and nothing waits [F16].
    pub fn new() -> Self
        ensures state { means result ≡ fresh_demux }
        ensures places { result ≡ fresh }
    {
        CCDataParser {
            cea608_on: false,
            pair_count: 0,
            pairs: [0u8; 93],
            pending_len: 0,
            pending: [0u8; 128],
            waiting_first: 0,
            waiting_count: 0,
            waiting: [Slot {
                len: 0,
                bytes: [0u8; 128],
            }; 32],
        }
    }

    /// Turns 608 on: the pairs of frames are listed from here on, and the list is empty [F15].
    pub fn handle_cea608(&mut self) -> Result<(), Refusal>
        ensures answer { says (outcome result) ≡ said_of self.old (quiet (turn608_on (means self.old))) }
        ensures state { valid self.old ≡ true → means self.new ≡ turn608_on (means self.old) }
        ensures places { self.new ≡ left_by (laid_after self.old) self.old (quiet (turn608_on (means self.old))) }
    {
        if !self.is_valid() {
            return Err(Refusal::BadValue);
        }
        self.cea608_on = true;
        self.pair_count = 0;
        Ok(())
    }

    /// Reads a frame [F1] to [F13]. Refused as `Full` or `BadValue` it changes nothing; with a late pair or a wrong length the list of pairs alone
    /// is changed.
    pub fn push(&mut self, frame: &[u8]) -> Result<(), Refusal>
        ensures answer { says (outcome result) ≡ said_of self.old (take_frame frame.now (means self.old)) }
        ensures state { valid self.old ≡ true → means self.new ≡ (take_frame frame.now (means self.old)).next }
        ensures places { self.new ≡ left_by (laid_after self.old) self.old (take_frame frame.now (means self.old)) }
    {
        if !self.is_valid() {
            return Err(Refusal::BadValue);
        }
        match parser_triples::plan_of(frame) {
            Plan::Unread => {
                self.pair_count = 0;
                Ok(())
            }
            Plan::LengthWrong { expected, actual } => {
                self.pair_count = 0;
                Err(Refusal::FrameLengthWrong { expected, actual })
            }
            Plan::Late { byte_pos } => {
                self.list(frame);
                Err(Refusal::Cea608AfterCea708 { byte_pos })
            }
            Plan::Pairs => {
                self.list(frame);
                Ok(())
            }
            Plan::Packets => {
                self.gather(frame)?;
                self.list(frame);
                Ok(())
            }
        }
    }

    /// Draws the next item: a pair of the list as long as there is one, then the packet that has waited longest [F14].
    pub fn draw(&mut self) -> Result<Drawn, Refusal>
        ensures answer { said drawn_values result ≡ says_with item_values (asked self.old (λ d. (draw d).item)) }
        ensures drawn { outcome result ≡ asked self.old (λ d. drawn_of (draw d).item) }
        ensures state { valid self.old ≡ true → means self.new ≡ (draw (means self.old)).next }
        ensures places { self.new ≡ left_by (laid_after self.old) self.old (quiet (draw (means self.old)).next) }
    {
        if !self.is_valid() {
            return Err(Refusal::BadValue);
        }
        if let Some(pair) = parser_draws::take_pair(&mut self.pairs, &mut self.pair_count) {
            return Ok(Drawn {
                item: Item::Pair(pair),
                packet: parser_draws::no_packet(),
            });
        }
        if let Some(packet) = parser_draws::take_packet(
            &self.waiting,
            &mut self.waiting_first,
            &mut self.waiting_count,
        ) {
            return Ok(Drawn {
                item: Item::Packet,
                packet,
            });
        }
        Ok(Drawn {
            item: Item::Nothing,
            packet: parser_draws::no_packet(),
        })
    }

    /// Drops all that is held, and turns 608 off [F16].
    pub fn flush(&mut self) -> Result<(), Refusal>
        ensures answer { says (outcome result) ≡ said_of self.old (quiet (flush_demux (means self.old))) }
        ensures state { valid self.old ≡ true → means self.new ≡ flush_demux (means self.old) }
        ensures places { self.new ≡ left_by (λ _. fresh) self.old (quiet (flush_demux (means self.old))) }
    {
        if !self.is_valid() {
            return Err(Refusal::BadValue);
        }
        *self = CCDataParser::new();
        Ok(())
    }

    /// How many pairs wait to be drawn [F7].
    pub fn pairs_waiting(&self) -> Result<usize, Refusal>
        ensures { outcome result ≡ asked self.now (λ d. length d.pairs) }
    {
        if !self.is_valid() {
            return Err(Refusal::BadValue);
        }
        Ok(self.pair_count)
    }

    /// How many packets wait to be drawn [F10].
    pub fn packets_waiting(&self) -> Result<usize, Refusal>
        ensures { outcome result ≡ asked self.now (λ d. length d.waiting) }
    {
        if !self.is_valid() {
            return Err(Refusal::BadValue);
        }
        Ok(self.waiting_count)
    }

    /// Whether a demultiplexer is within the limits; every call of one that is not is refused [F17].
    pub fn is_valid(&self) -> bool
        ensures { result ≡ valid self.now }
    {
        if !parser_lists::list_good(self.cea608_on, &self.pairs, self.pair_count) {
            return false;
        }
        if !parser_gather::pending_good(&self.pending, self.pending_len) {
            return false;
        }
        parser_rings::ring_good(&self.waiting, self.waiting_first, self.waiting_count)
    }

    // The list of pairs is that of a frame [F7].
    fn list(&mut self, frame: &[u8])
        ensures { self.new ≡ with_list self.old (listing_of self.old frame.now) }
    {
        let count = parser_lists::list_frame(self.cea608_on, &mut self.pairs, frame);
        self.pair_count = count;
    }

    // Packets are gathered from a frame; one that would make more than 32 wait is refused, and changes nothing [F13]. Where that could be, they are gathered
    // apart: a frame delivers at most one packet a triple and one at its end.
    fn gather(&mut self, frame: &[u8]) -> Result<(), Refusal>
        requires limits { valid self.old ≡ true }
        requires planned { plan_of frame.now ≡ Plan.Packets }
        ensures answer { says (outcome result) ≡ gather_says self.old frame.now }
        ensures places { self.new ≡ gathered self.old frame.now }
    {
        if 3 * self.waiting_count + frame.len() < 3 * MOST_WAITING {
            self.gather_here(frame);
            return Ok(());
        }
        self.gather_apart(frame)
    }

    // Packets are gathered from a frame into the slots and the pending bytes.
    fn gather_here(&mut self, frame: &[u8])
        ensures { self.new ≡ with_left self.old (left_of self.old frame.now) }
    {
        let left = parser_gather::gather_frame(
            self.waiting_first,
            self.waiting_count,
            &mut self.waiting,
            self.pending_len,
            &mut self.pending,
            frame,
        );
        self.waiting_count = left.waiting;
        self.pending_len = left.pending;
    }

    // Packets are gathered from a frame into a copy, which is kept if no more than 32 wait.
    fn gather_apart(&mut self, frame: &[u8]) -> Result<(), Refusal>
        ensures answer { says (outcome result) ≡ gather_says self.old frame.now }
        ensures places { self.new ≡ gathered self.old frame.now }
    {
        let mut apart = *self;
        apart.gather_here(frame);
        if MOST_WAITING < apart.waiting_count {
            return Err(Refusal::Full);
        }
        *self = apart;
        Ok(())
    }
}
