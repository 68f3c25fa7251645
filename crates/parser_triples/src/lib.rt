// What is to be done with a frame, by its header and its triples: whether there is a late 608 triple, and whether a valid 708 triple.
#![tactic(auto)]

ghost use Rattle.std.specs.Prelude.{◌≡◌, ◌+◌, ◌*◌, ◌≤◌, length};
ghost use Rattle.model.specs.Demux.{late_after, carries708};
ghost use Rattle.parser_triples.specs.Walk.{seen_from};
ghost use Rattle.parser_triples.specs.Plan.{plan_found, plan_walked, plan_of};

/// What is to be done with a frame.
#[derive(Clone, Copy, Debug, PartialEq, Eq)]
pub enum Plan {
    /// Nothing is read [F2].
    Unread,
    /// The length is not what the count asks for [F3], and the frame is refused.
    LengthWrong { expected: usize, actual: usize },
    /// A valid 608 triple stands after the 608 part [F6], at this place: the pairs before it are listed, and the frame is refused.
    Late { byte_pos: usize },
    /// The pairs are listed [F7]; no 708 triple is valid, and no bytes are gathered [F8].
    Pairs,
    /// The pairs are listed, and bytes are gathered.
    Packets,
}

// The search after the 608 part, from the triple at `from` on.
fn scan_after(frame: &[u8], from: usize) -> Plan
    requires { 3 * from ≤ length frame.now + 2 }
    ensures { result ≡ plan_found (late_after from (seen_from from frame.now))
        (carries708 (seen_from from frame.now)) }
{
    let mut carries = false;
    let mut i = from;
    while 3 * i + 4 < frame.len() {
        let v = frame[3 * i + 2] % 8;
        if v < 4 {
            i += 1;
        } else {
            if v < 6 {
                return Plan::Late { byte_pos: 3 * i };
            }
            carries = true;
            i += 1;
        }
    }
    if carries {
        return Plan::Packets;
    }
    Plan::Pairs
}

// The search over the triples of a frame.
fn scan_frame(frame: &[u8]) -> Plan
    ensures { result ≡ plan_walked frame.now }
{
    let mut i = 0;
    while 3 * i + 4 < frame.len() {
        let ends = frame[3 * i + 2] % 4 >= 2;
        if ends {
            return scan_after(frame, i);
        }
        i += 1;
    }
    Plan::Pairs
}

/// What is to be done with a frame, by its header [F2] [F3] and then by its triples.
pub fn plan_of(frame: &[u8]) -> Plan
    ensures { result ≡ plan_of frame.now }
{
    let n = frame.len();
    if n < 5 {
        return Plan::Unread;
    }
    let b = frame[0];
    if b / 64 % 2 != 1 {
        return Plan::Unread;
    }
    let k = (b % 32) as usize;
    if k == 0 {
        return Plan::Unread;
    }
    if n != 3 * k + 2 {
        return Plan::LengthWrong {
            expected: 3 * k + 2,
            actual: n,
        };
    }
    scan_frame(frame)
}
