// The calls that write nothing: what they say of a frame. Each is one call of the library with what it takes of the frame.
ghost use Rattle.std.specs.Prelude.{◌≡◌};
ghost use Rattle.said.specs.Answers.{answer_of};
ghost use Rattle.answers.specs.Replies.{check_said, exact_said, next_said, inverse_said, span_said, packed_said};

use crate::frames::Frame;
use astrephon::SubfileOffset;
use said::Answer;

pub fn check(frame: &Frame) -> Answer
    ensures { result ≡ answer_of (check_said frame.now.bytes.now) }
{
    said::of_outcome(astrephon::check(frame.sheet1))
}

pub fn exact(frame: &Frame) -> Answer
    ensures { result ≡ answer_of (exact_said frame.now.bytes.now) }
{
    said::of_outcome(astrephon::exact(frame.sheet1, frame.i, frame.a))
}

pub fn next(frame: &Frame) -> Answer
    ensures { result ≡ answer_of (next_said frame.now.bytes.now) }
{
    said::of_outcome(astrephon::next(frame.sheet1, frame.i, frame.a))
}

pub fn inverse(frame: &Frame) -> Answer
    ensures { result ≡ answer_of (inverse_said frame.now.bytes.now) }
{
    said::of_outcome(astrephon::inverse(frame.sheet1, frame.i, SubfileOffset(frame.a.0)))
}

pub fn span(frame: &Frame) -> Answer
    ensures { result ≡ answer_of (span_said frame.now.bytes.now) }
{
    said::of_outcome(astrephon::span(frame.sheet1, frame.i, frame.a, frame.b))
}

pub fn packed_length(frame: &Frame) -> Answer
    ensures { result ≡ answer_of (packed_said frame.now.bytes.now) }
{
    said::of_outcome(astrephon::packed_len(frame.sheet1, frame.i, frame.a, frame.b))
}
