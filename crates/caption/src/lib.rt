// What every part of the caption gateway shares: the answers of a call, a CEA-608 byte pair, and a frame rate with its two budgets.
#![tactic(auto)]

ghost use Rattle.std.specs.Prelude.{◌≡◌, ◌*◌, ◌<◌};
ghost use Rattle.model.specs.Said.{mapped};
ghost use Rattle.model.specs.Rate.{budgets, rounded};
ghost use Rattle.caption.specs.Answers.{outcome};
ghost use Rattle.caption.specs.Rates.{rate, named_rates, budgets_of};

use basics::{MOST_TRIPLES, PAIRS_A_SECOND, TRIPLES_A_SECOND, cut};
use std::error::Error;
use std::fmt;

/// Why a call was refused; docs/REFUSALS.md has the number of each. A call that answers `Err` has changed nothing, but for the list of 608 pairs
/// after a refused frame.
#[derive(Clone, Copy, Debug, PartialEq, Eq)]
pub enum Refusal {
    /// A valid 608 triple stands after a 708 triple.
    Cea608AfterCea708 {
        byte_pos: usize,
    },
    /// A run or a block does not fit, by this many bytes.
    WouldOverflow(usize),
    /// A run is for service 0.
    ReadOnly,
    /// A block without payload is pushed.
    EmptyService,
    /// A sequence number is above 3, or a service number above 63.
    BadNumber,
    /// A run has no bytes.
    BadRun,
    /// A frame rate has no budgets.
    BadRate,
    /// The lent output is shorter than what would be written.
    OutShort {
        needed: usize,
    },
    /// No place is left.
    Full,
    /// A state, packet or block breaks a limit.
    BadValue,
    /// A frame has another length than its count asks for.
    FrameLengthWrong {
        expected: usize,
        actual: usize,
    },
    /// A packet has another length than its header allows; it stands at offset 0.
    PacketLengthWrong {
        expected: usize,
        actual: usize,
        offset: usize,
    },
    /// The header of the block that begins at this offset of its packet is cut short; a block that is read alone stands at 0.
    BlockHeaderShort {
        expected: usize,
        actual: usize,
        offset: usize,
    },
    /// The body of the block that begins at this offset, which its header announces, is cut short.
    BlockBodyShort {
        expected: usize,
        actual: usize,
        offset: usize,
    },
    /// What is read does not begin as a distribution packet does.
    BadMark,
    /// A length, a section or the rate of a distribution packet is wrong, a frame that is to become one has another length than its count asks for, or a
    /// code has no rate.
    BadSection,
    /// The sum of the bytes of a distribution packet is not 0.
    BadSum,
    /// The two counters of a distribution packet differ.
    CountersDiffer,
    /// A distribution packet is not newer than the last one.
    NotNewer,
    /// The byte that would tell the length of a code tells none.
    UnknownLength,
    /// The bytes end within a code.
    CodeCutShort,
    /// A byte is not in exactly one piece of a proposal, or a piece is empty or holds what is no byte of a run.
    BadCover,
    /// The bytes of a service do not keep their order.
    OutOfOrder,
    /// A run is split across blocks.
    RunSplit,
    /// A limit on runs, blocks or packets is broken.
    OverLimit,
}

impl fmt::Display for Refusal {
    fn fmt<W: fmt::Write>(&self, f: &mut fmt::Formatter<W>) -> fmt::Result {
        match self {
            Refusal::Cea608AfterCea708 { byte_pos } => write!(
                f,
                "a 608 pair stands behind packet data in the same frame, at byte {byte_pos}"
            ),
            Refusal::WouldOverflow(bytes) => write!(
                f,
                "it does not fit into the block or the packet, by {bytes} bytes"
            ),
            Refusal::ReadOnly => write!(f, "service 0 carries nothing"),
            Refusal::EmptyService => write!(f, "a block without payload was to go into a packet"),
            Refusal::BadNumber => write!(f, "there is no such service or sequence number"),
            Refusal::BadRun => write!(f, "there was nothing to push"),
            Refusal::BadRate => write!(f, "captions do not go at this frame rate"),
            Refusal::OutShort { needed } => write!(
                f,
                "the output is too small: {needed} bytes are needed"
            ),
            Refusal::Full => write!(f, "a queue has no place left"),
            Refusal::BadValue => write!(f, "what was handed in is broken"),
            Refusal::FrameLengthWrong { expected, actual } => write!(
                f,
                "a frame does not have the length that it says: {actual} bytes, not {expected}"
            ),
            Refusal::PacketLengthWrong {
                expected,
                actual,
                offset,
            } => write!(
                f,
                "a packet at {offset} does not have the length that it says: {actual} bytes, not {expected}"
            ),
            Refusal::BlockHeaderShort {
                expected,
                actual,
                offset,
            } => write!(
                f,
                "a block at {offset} ends within its header: {actual} of {expected} bytes"
            ),
            Refusal::BlockBodyShort {
                expected,
                actual,
                offset,
            } => write!(
                f,
                "a block at {offset} ends within the body that its header announces: {actual} of {expected} bytes"
            ),
            Refusal::BadMark => write!(
                f,
                "what was read does not begin as a distribution packet does"
            ),
            Refusal::BadSection => write!(
                f,
                "a distribution packet has a length, a rate or a part that is not taken, or a frame does not fit into one"
            ),
            Refusal::BadSum => write!(f, "the bytes of a distribution packet do not sum to 0"),
            Refusal::CountersDiffer => write!(
                f,
                "a distribution packet has one counter in front and another behind"
            ),
            Refusal::NotNewer => write!(f, "a distribution packet came twice, or too late"),
            Refusal::UnknownLength => write!(f, "a caption code whose length is not known here"),
            Refusal::CodeCutShort => write!(f, "text ends in the middle of a caption code"),
            Refusal::BadCover => write!(
                f,
                "a proposal leaves a byte out, has one twice, or has a piece that is empty or out of its run"
            ),
            Refusal::OutOfOrder => write!(
                f,
                "a proposal sends the text of a service in another order"
            ),
            Refusal::RunSplit => write!(f, "a proposal splits a run across blocks"),
            Refusal::OverLimit => write!(f, "runs, or what is proposed for them, break a limit"),
        }
    }
}

impl Error for Refusal {}

/// A CEA-608 compatibility byte pair, by its field.
#[derive(Clone, Copy, Debug, PartialEq, Eq)]
pub enum Cea608 {
    Field1(u8, u8),
    Field2(u8, u8),
}

// A frame rate: `numer` frames in `denom` seconds. One that has no budgets is refused, and no other [G2]: a frame would carry no pair (above 120
// frames a second) or more than 31 triples (below 19.05), or the numerator is 0.
#[derive(Clone, Copy, Debug, PartialEq, Eq)]
pub struct Framerate {
    pub numer: u32,
    pub denom: u32,
}

/// The most that one frame of a rate carries: CEA-608 pairs, and triples.
#[derive(Clone, Copy, Debug, PartialEq, Eq)]
pub struct Budgets {
    pub pairs: usize,
    pub triples: usize,
}

impl Framerate {
    // 24 frames a second, of film.
    pub const FPS_24: Framerate = Framerate {
        numer: 24,
        denom: 1,
    };

    // 25 frames a second.
    pub const FPS_25: Framerate = Framerate {
        numer: 25,
        denom: 1,
    };

    // 30000 frames in 1001 seconds, called 29.97.
    pub const FPS_29_97: Framerate = Framerate {
        numer: 30000,
        denom: 1001,
    };

    // 50 frames a second.
    pub const FPS_50: Framerate = Framerate {
        numer: 50,
        denom: 1,
    };

    // 60000 frames in 1001 seconds, called 59.94.
    pub const FPS_59_94: Framerate = Framerate {
        numer: 60000,
        denom: 1001,
    };

    // The rate of `numer` frames in `denom` seconds [G1].
    pub fn new(numer: u32, denom: u32) -> Self
        ensures { result ≡ rate numer denom }
    {
        Self { numer, denom }
    }

    // The five rates that have names, slowest first [G3].
    pub fn named() -> [Framerate; 5]
        ensures { result ≡ named_rates }
    {
        [
            Framerate::FPS_24,
            Framerate::FPS_25,
            Framerate::FPS_29_97,
            Framerate::FPS_50,
            Framerate::FPS_59_94,
        ]
    }

    // The numerator of the fraction.
    pub fn numer(self) -> u32
        ensures { result ≡ self.numer }
    {
        self.numer
    }

    // The denominator of the fraction.
    pub fn denom(self) -> u32
        ensures { result ≡ self.denom }
    {
        self.denom
    }

    // How many 608 pairs and how many triples one frame carries [G1] [G2], without a division. Less than half a pair is refused first, and then 31 and
    // a half triples or more, and with them a numerator of 0; what is left is below 32 of either and can be cut.
    pub fn budgets(self) -> Result<Budgets, Refusal>
        ensures { mapped budgets_of (outcome result) ≡ budgets self.numer self.denom }
    {
        let numer = self.numer as usize;
        let denom = self.denom as usize;
        if 2 * PAIRS_A_SECOND * denom < numer {
            return Err(Refusal::BadRate);
        }
        if (2 * MOST_TRIPLES + 1) * numer <= 2 * TRIPLES_A_SECOND * denom {
            return Err(Refusal::BadRate);
        }
        Ok(Budgets {
            pairs: self.nearest(PAIRS_A_SECOND),
            triples: self.nearest(TRIPLES_A_SECOND),
        })
    }

    // `k` times `denom` over `numer`, which is below 32, to the nearest whole number: a half goes up.
    fn nearest(self, k: usize) -> usize
        requires { k * self.denom < 32 * self.numer }
        ensures { result ≡ rounded k self.numer self.denom }
    {
        let s = cut(k * self.denom as usize, self.numer);
        if 2 * s.rest < self.numer as usize {
            return s.count;
        }
        s.count + 1
    }
}
