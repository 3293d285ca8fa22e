// The calls that carry bytes, from a frame's source buffer into its destination buffer. Each hands its own call of the library what that asks of the frame: one
// function for all would take a closure that says just this, and be no plainer.
ghost use Rattle.answers.specs.Replies.{Tells, gather_outcome, scatter_outcome, move_outcome, pair_move_outcome};

use crate::frames::Frame;
use said::Answer;

pub fn gather(frame: &Frame, into: &mut [u8]) -> Answer
    ensures { Tells (gather_outcome frame.now.bytes.now into.old) result into.new }
{
    said::of_outcome(astrephon::gather(frame.sheet1, frame.i, frame.a, frame.b, frame.source, into))
}

pub fn scatter(frame: &Frame, into: &mut [u8]) -> Answer
    ensures { Tells (scatter_outcome frame.now.bytes.now into.old) result into.new }
{
    said::of_outcome(astrephon::scatter(
        frame.sheet1,
        frame.i,
        frame.a,
        frame.b,
        frame.source,
        into,
    ))
}

pub fn move_tray(frame: &Frame, into: &mut [u8]) -> Answer
    ensures { Tells (move_outcome frame.now.bytes.now into.old) result into.new }
{
    said::of_outcome(astrephon::move_tray(
        frame.sheet1,
        frame.sheet2,
        frame.a,
        frame.b,
        frame.source,
        into,
    ))
}

pub fn move_pair(frame: &Frame, into: &mut [u8]) -> Answer
    ensures { Tells (pair_move_outcome frame.now.bytes.now into.old) result into.new }
{
    said::of_outcome(astrephon::move_pair(
        frame.sheet1,
        frame.sheet2,
        frame.i,
        frame.j,
        frame.a,
        frame.b,
        frame.source,
        into,
    ))
}
