// The calls that write a list or a text into a frame's destination buffer.
ghost use Rattle.std.specs.Prelude.{◌≡◌, ◌/◌, ◌≤◌, length};
ghost use Rattle.answers.specs.Replies.{Tells, shared_outcome, listing_outcome};

use crate::frames::Frame;
use crate::numbers;
use said::Answer;

// Shared runs, by way of a list with as many slots as the buffer has whole ones.
#[tactic(auto, unfolding(crate::specs::Replies::shared_outcome))]
fn list_runs(frame: &Frame, into: &mut [u8], list: &mut [u64]) -> Answer
    requires { length list.old ≡ length into.old / 8 }
    ensures { Tells (shared_outcome frame.now.bytes.now into.old) result into.new }
{
    numbers::take_slots(into, list);
    let listed = astrephon::shared_runs(
        frame.sheet1,
        frame.sheet2,
        frame.i,
        frame.j,
        frame.a,
        frame.b,
        list,
    );
    numbers::put_slots(list, into);
    said::of_outcome(listed)
}

pub fn shared_runs(frame: &Frame, into: &mut [u8]) -> Answer
    requires { length into.old ≤ 65536 }
    ensures { Tells (shared_outcome frame.now.bytes.now into.old) result into.new }
{
    let mut list = [0; numbers::MOST_SLOTS];
    let slots = into.len() / 8;
    list_runs(frame, into, &mut list[..slots])
}

pub fn list_sheet(frame: &Frame, into: &mut [u8]) -> Answer
    ensures { Tells (listing_outcome frame.now.bytes.now into.old) result into.new }
{
    said::of_outcome(astrephon::list_sheet(frame.sheet1, into))
}
