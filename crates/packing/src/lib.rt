//! Proposals of packers: one that any packer made, checked, and the first-come packer, which makes one. It makes a piece of each run, pushed to the packet
//! that is being filled, or to the next one where that refuses it.
#![tactic(auto)]

ghost use Rattle.std.specs.Prelude.{◌≡◌, true, [], ◌∷◌, ◌≤◌, ◌<◌, OnErr};
ghost use Rattle.std.proofs.lemmas.List.Edits.{sets};
ghost use Rattle.model.specs.Said.{says, is_given, mapped, after};
ghost use Rattle.model.specs.Packet.{latest, push_run};
ghost use Rattle.packet.specs.Packet.{valid_dtvcc, packet_of, blank};
ghost use Rattle.caption.specs.Answers.{outcome};
ghost use Rattle.model_packing.specs.Pieces.{pieces_of, numbers_of};
ghost use Rattle.model_packing.specs.Proposals.{check_proposal};
ghost use Rattle.model_packing.specs.FirstCome.{first_come, propose, packets_filled, packable, place_or0};
ghost use Rattle.packing.specs.Calls.{told_of};
ghost use Rattle.packing.specs.Fillings.{InPlaces, BeginsWith, PlacesRun};

use basics::put_bytes;
use caption::Refusal;
use packet::DTVCCPacket;
use packing_bytes::check_bytes;
use packing_limits::within_limits;
use packing_runs::{MOST_RUNS, PIECE, number_at, runs_fit};

/// A proposal that was made: how many packets it fills, and how many bytes of the lent output are its pieces.
#[derive(Clone, Copy, Debug, PartialEq, Eq)]
pub struct Made {
    pub packets: usize,
    pub len: usize,
}

/// Checks a proposal for runs, five bytes a piece [Q1] to [Q7]. Refused, in this order: `OverLimit` for more than 256 runs, `BadCover`, `OutOfOrder`,
/// `RunSplit`, and `OverLimit` where a limit of runs, blocks or packets is broken.
pub fn check(services: &[u8], lengths: &[u8], pieces: &[u8]) -> Result<(), Refusal>
    ensures { says (outcome result) ≡ check_proposal services.now lengths.now (pieces_of pieces.now) }
{
    check_bytes(services, lengths, pieces)?;
    if within_limits(services, lengths, pieces) {
        return Ok(());
    }
    Err(Refusal::OverLimit)
}

/// Proposes pieces for runs, five bytes for each [Q8]. Refused with `OverLimit` where there are more than 256 runs or one does not fit, then with
/// `OutShort`.
pub fn propose(services: &[u8], lengths: &[u8], out: &mut [u8]) -> Result<Made, Refusal>
    ensures answer { outcome result ≡ mapped told_of (propose services.now lengths.now out.old) }
    ensures output { out.new ≡ after out.old (mapped (λ x. x.out) (propose services.now lengths.now out.old)) }
    ensures kept { OnErr result (out.new ≡ out.old) }
{
    let n = services.len();
    if MOST_RUNS < n {
        return Err(Refusal::OverLimit);
    }
    if !runs_fit(services, lengths) {
        return Err(Refusal::OverLimit);
    }
    let needed = PIECE * n;
    if out.len() < needed {
        return Err(Refusal::OutShort { needed });
    }
    let packets = put_pieces(services, lengths, out);
    Ok(Made {
        packets,
        len: needed,
    })
}

// The packet that is being filled, and how many there are before it.
#[derive(Clone, Copy)]
struct Filling {
    before: usize,
    packet: DTVCCPacket,
}

// A packet without blocks, with sequence number 0.
fn empty() -> DTVCCPacket
    ensures { result ≡ blank }
{
    DTVCCPacket {
        seq_no: 0,
        count: 0,
        services: 0,
        numbers: [0u8; 63],
        sizes: [0u8; 63],
        payload: [0u8; 127],
    }
}

// Pushes a run to a packet, and tells whether it took it.
fn take_run(packet: &mut DTVCCPacket, service: u8, run: &[u8]) -> bool
    requires within { valid_dtvcc packet.old ≡ true }
    requires places { InPlaces packet.old }
    ensures answer { result ≡ is_given (push_run service run.now (packet_of packet.old)) }
    ensures state { packet_of packet.new ≡
        after (packet_of packet.old) (push_run service run.now (packet_of packet.old)) }
    ensures within { valid_dtvcc packet.new ≡ true }
    ensures places { InPlaces packet.new }
{
    packet.push_code(service, run).is_ok()
}

// The place of the latest block of a service.
fn block_of(packet: &DTVCCPacket, service: u8) -> usize
    requires { valid_dtvcc packet.now ≡ true }
    ensures { result ≡ place_or0 (latest service (packet_of packet.now)) }
{
    match packet_entries::latest(&packet.numbers, packet.count, service) {
        Some(place) => place,
        None => 0,
    }
}

impl Filling {
    // Begins the next packet with a run.
    fn begin(&mut self, service: u8, run: &[u8])
        requires { self.old.before ≤ 255 }
        ensures { BeginsWith self.old.before service run.now self.new }
    {
        self.before += 1;
        self.packet = empty();
        let _ = take_run(&mut self.packet, service, run);
    }

    // Pushes a run of so many bytes to the packet that is being filled, or begins the next one with it [Q8].
    fn place(&mut self, service: u8, size: usize)
        requires size_bound { size ≤ 31 }
        requires before_bound { self.old.before ≤ 255 }
        requires packet_value { valid_dtvcc self.old.packet ≡ true }
        requires packet_places { InPlaces self.old.packet }
        ensures { PlacesRun service size self.old self.new }
    {
        let zeros = [0u8; 31];
        if take_run(&mut self.packet, service, &zeros[0..size]) {
            return;
        }
        self.begin(service, &zeros[0..size]);
    }
}

// Puts the piece of a whole run, as far as there is room.
fn put_piece(out: &mut [u8], at: usize, run: usize, size: usize, packet: usize, block: usize)
    requires { (run < 256) × (size < 256) × (packet < 256) × (block < 256) }
    ensures { out.new ≡ sets out.old at (run ∷ 0 ∷ size ∷ packet ∷ block ∷ []) }
{
    let piece = [run as u8, 0, size as u8, packet as u8, block as u8];
    put_bytes(out, at, &piece);
}

// Puts the pieces of all runs, and counts the packets that they fill.
fn put_pieces(services: &[u8], lengths: &[u8], out: &mut [u8]) -> usize
    requires { packable services.now lengths.now ≡ true }
    ensures value { result ≡ packets_filled services.now lengths.now }
    ensures output { out.new ≡ sets out.old 0 (numbers_of (first_come services.now lengths.now)) }
{
    let n = services.len();
    if n == 0 {
        return 0;
    }
    let packet = empty();
    let mut at = Filling { before: 0, packet };
    for i in 0..n {
        let service = services[i];
        let size = number_at(lengths, i);
        at.place(service, size);
        let block = block_of(&at.packet, service);
        put_piece(out, PIECE * i, i, size, at.before, block);
    }
    at.before + 1
}
