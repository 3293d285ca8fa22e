// The calls by their numbers. A frame is answered by the line of what its call answers.
ghost use Rattle.std.specs.Prelude.{◌≡◌, ◌+◌, ◌*◌, ◌≤◌, ◌<◌, [], length, take, MatchOption};
ghost use Rattle.io.specs.Counts.{IsPrefixLen};
ghost use Rattle.answers.specs.Calls.{number_of, Decodes};
ghost use Rattle.answers.specs.Frames.{call_of, into_of};
ghost use Rattle.answers.specs.Lines.{Room};
ghost use Rattle.answers.specs.Replies.{leaving, reply_to};
ghost use Rattle.answers.specs.Replies.{reply};

use crate::frames::Frame;
use crate::{asking, carrying, line, writing};
use said::Answer;

#[derive(Clone, Copy, Debug, PartialEq, Eq)]
pub enum Call {
    Check,
    Exact,
    Next,
    Inverse,
    Span,
    Gather,
    Scatter,
    Move,
    PairMove,
    SharedRuns,
    Listing,
    PackedLength,
}

// A number that names no call.
#[derive(Clone, Copy, Debug, PartialEq, Eq)]
pub struct UnknownCall(pub u8);

impl TryFrom<u8> for Call {
    type Error = UnknownCall;

    ghost try_from_gives = { Decodes };

    fn try_from(number: u8) -> Result<Self, UnknownCall> {
        match number {
            1 => Ok(Call::Check),
            2 => Ok(Call::Exact),
            3 => Ok(Call::Next),
            4 => Ok(Call::Inverse),
            5 => Ok(Call::Span),
            6 => Ok(Call::Gather),
            7 => Ok(Call::Scatter),
            8 => Ok(Call::Move),
            9 => Ok(Call::PairMove),
            10 => Ok(Call::SharedRuns),
            11 => Ok(Call::Listing),
            17 => Ok(Call::PackedLength),
            _ => Err(UnknownCall(number)),
        }
    }
}

// Makes the frame's call on the destination buffer. That the buffer is short is a fact of what is lent beside the frame; here, below and in `writing` it is a clause.
#[tactic(auto, unfolding(crate::specs::Replies::reply_to, crate::specs::Replies::asked_of))]
fn make(call: Call, frame: &Frame, into: &mut [u8]) -> Answer
    requires { length into.old ≤ 65536 }
    ensures { leaving (Some result) into.new ≡ reply_to (number_of call) frame.now.bytes.now into.old }
{
    match call {
        Call::Check => asking::check(frame),
        Call::Exact => asking::exact(frame),
        Call::Next => asking::next(frame),
        Call::Inverse => asking::inverse(frame),
        Call::Span => asking::span(frame),
        Call::Gather => carrying::gather(frame, into),
        Call::Scatter => carrying::scatter(frame, into),
        Call::Move => carrying::move_tray(frame, into),
        Call::PairMove => carrying::move_pair(frame, into),
        Call::SharedRuns => writing::shared_runs(frame, into),
        Call::Listing => writing::list_sheet(frame, into),
        Call::PackedLength => asking::packed_length(frame),
    }
}

// Puts the line of a frame into `text`, and answers how long it is. The call is made on a copy of the frame's destination buffer, in `into`.
fn put_reply(call: Call, frame: &Frame, into: &mut [u8], text: &mut [u8]) -> usize
    requires called { number_of call ≡ call_of frame.now.bytes.now }
    requires buffered { length into.old ≡ length (into_of frame.now.bytes.now) }
    requires short { length into.old ≤ 65536 }
    requires lined { 149 + 2 * length into.old ≤ length text.old }
    ensures line { take result text.new ≡ reply frame.now.bytes.now }
    ensures lent { IsPrefixLen result text.new }
    ensures some { 0 < result }
{
    into.copy_from_slice(frame.destination);
    let answer = make(call, frame, into);
    line::put_line(answer, into, text)
}

// Puts the line of the bytes of a frame into `text`, and answers how long it is: nothing where they are no whole frame or the call is unknown.
// `space` is for the destination buffer.
pub fn answer(bytes: &[u8], space: &mut [u8], text: &mut [u8]) -> Option<usize>
    requires { Room (length bytes.now) (length space.old) (length text.old) }
    ensures { MatchOption
        result
        (reply bytes.now ≡ [])
        (λ n. (take n text.new ≡ reply bytes.now) × IsPrefixLen n text.new × (0 < n)) }
{
    let frame = Frame::parse(bytes)?;
    let call = frame.call()?;
    let size = frame.destination.len();
    Some(put_reply(call, &frame, &mut space[..size], text))
}
