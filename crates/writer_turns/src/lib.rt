// The 608 part of a frame: the turns that the two fields take.
#![tactic(auto)]

ghost use Rattle.std.specs.Prelude.{◌≡◌, cond, not, ◌+◌, ◌*◌, ◌/◌, ◌≤◌, length};
ghost use Rattle.model.specs.Frame.{most_frame};
ghost use Rattle.model.specs.Mux.{turn1, turn2};
ghost use Rattle.writer_queues.specs.Queue.{pairs_of};
ghost use Rattle.writer_turns.specs.Turn.{fits, turns_by, taken_from};
ghost use Rattle.writer_turns.specs.Step.{Done};

use basics::MOST_QUEUED;
use writer_frames::{Frame, put};
use writer_queues::PairQueue;

// What the fields have queued, whose turn is next, and the frame that the turns go into.
#[derive(Clone, Copy)]
pub struct Turns {
    pub field1: PairQueue,
    pub field2: PairQueue,
    pub field2_next: bool,
    pub frame: Frame,
}

impl Turns {
    // The turns of a frame, from the field whose turn is next. Nothing is done where a count or the room is not enough.
    pub fn take(self, pad: bool, turns: usize) -> Turns
        ensures { result ≡ cond (fits self turns) (taken_from turns pad self) self }
    {
        let queue1 = self.field1;
        let queue2 = self.field2;
        let frame = self.frame;
        if MOST_QUEUED < queue1.count {
            return self;
        }
        if MOST_QUEUED < queue2.count {
            return self;
        }
        if frame.has_room(turns) {
            let bytes1 = queue1.bytes;
            let bytes2 = queue2.bytes;
            let mut bytes = frame.bytes;
            let course = turns_from(
                self.field2_next,
                &bytes1[0..2 * queue1.count],
                &bytes2[0..2 * queue2.count],
                pad,
                turns,
                &mut bytes,
                frame.len,
            );
            let field1 = queue1.down_to(course.left1);
            let field2 = queue2.down_to(course.left2);
            return Turns {
                field1,
                field2,
                field2_next: course.field2_next,
                frame: Frame {
                    bytes,
                    len: course.len,
                },
            };
        }
        self
    }
}

// What turns leave: how many pairs of each queue, whether field 2 has the next turn, and how many bytes the frame then has.
#[derive(Clone, Copy)]
struct Course {
    pub left1: usize,
    pub left2: usize,
    pub field2_next: bool,
    pub len: usize,
}

// The turns from field 2 on, or from field 1 on. The queues are lent as the bytes of the pairs that have not left, the frame with `len` bytes in it.
fn turns_from(
    field2_next: bool,
    queue1: &[u8],
    queue2: &[u8],
    pad: bool,
    left: usize,
    frame: &mut [u8; 95],
    len: usize,
) -> Course
    requires { len + 3 * left ≤ most_frame }
    ensures { Done (turns_by (not field2_next) left pad (pairs_of queue1.now) (pairs_of queue2.now)) len frame.old result frame.new }
{
    if field2_next {
        return field2_turn(queue1, queue2, pad, left, frame, len);
    }
    field1_turn(queue1, queue2, pad, left, frame, len)
}

// A field 1 turn, and then a field 2 turn, while turns are left: its pair; else, if field 2 has one, an empty pair; else padding or nothing.
#[cycle(field1_turn_field2_turn)]
fn field1_turn(
    queue1: &[u8],
    queue2: &[u8],
    pad: bool,
    left: usize,
    frame: &mut [u8; 95],
    len: usize,
) -> Course
    requires { len + 3 * left ≤ most_frame }
    ensures { Done (turn1 left pad (pairs_of queue1.now) (pairs_of queue2.now)) len frame.old result frame.new }
{
    if left == 0 {
        return course_end(queue1, queue2, false, len);
    }
    if 1 < queue1.len() {
        put(frame, len, 0xFC, queue1[0], queue1[1]);
        return field2_turn(&queue1[2..], queue2, pad, left - 1, frame, len + 3);
    }
    if 1 < queue2.len() {
        put(frame, len, 0xFC, 0x80, 0x80);
        return field2_turn(queue1, queue2, pad, left - 1, frame, len + 3);
    }
    if pad {
        put(frame, len, 0xF8, 0x80, 0x80);
        return field2_turn(queue1, queue2, pad, left - 1, frame, len + 3);
    }
    field2_turn(queue1, queue2, pad, left - 1, frame, len)
}

// A field 2 turn, and then a field 1 turn, while turns are left: its pair; else padding or nothing.
#[cycle(field1_turn_field2_turn)]
fn field2_turn(
    queue1: &[u8],
    queue2: &[u8],
    pad: bool,
    left: usize,
    frame: &mut [u8; 95],
    len: usize,
) -> Course
    requires { len + 3 * left ≤ most_frame }
    ensures { Done (turn2 left pad (pairs_of queue1.now) (pairs_of queue2.now)) len frame.old result frame.new }
{
    if left == 0 {
        return course_end(queue1, queue2, true, len);
    }
    if 1 < queue2.len() {
        put(frame, len, 0xFD, queue2[0], queue2[1]);
        return field1_turn(queue1, &queue2[2..], pad, left - 1, frame, len + 3);
    }
    if pad {
        put(frame, len, 0xF9, 0x80, 0x80);
        return field1_turn(queue1, queue2, pad, left - 1, frame, len + 3);
    }
    field1_turn(queue1, queue2, pad, left - 1, frame, len)
}

// Where no turn is left: what is told of the queues and the frame as they are.
fn course_end(queue1: &[u8], queue2: &[u8], field2_next: bool, len: usize) -> Course
    ensures { result ≡ (record { left1 = length queue1.now / 2; left2 = length queue2.now / 2; field2_next = field2_next; len = len }) }
{
    Course {
        left1: queue1.len() / 2,
        left2: queue2.len() / 2,
        field2_next,
        len,
    }
}
