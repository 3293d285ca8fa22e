// The parts of a frame: a call, four numbers, four blobs. What is said here is of the bytes that follow a frame's first number.
ghost use Rattle.std.specs.Prelude.{◌≡◌, ◌≤◌, ◌<◌, ◌^◌, length, MatchOption};
ghost use Rattle.sheets.specs.Bytes.{le32};
ghost use Rattle.answers.specs.Calls.{number_of, NamesNone};
ghost use Rattle.answers.specs.Frames.{call_of, blob, blob_end, end1, Whole, i_of, j_of, a_of, b_of, from_of, into_of};

use crate::calls::Call;
use crate::numbers;
use astrephon::FileOffset;

// The most bytes that may follow a frame's first number.
pub const MOST: usize = 65532;

// Where the numbers stand, behind the call, and then the first blob's length.
const I: usize = 1;

const J: usize = 9;

const A: usize = 17;

const B: usize = 25;

const BLOBS: usize = 33;

// A frame's first number.
#[tactic(auto, unfolding(sheets::specs::Bytes::le16, sheets::specs::Bytes::le32))]
pub fn number(head: &[u8; 4]) -> usize
    ensures { result ≡ le32 head.now 0 }
{
    u32::from_le_bytes(*head) as usize
}

// The blob whose length stands at `at`, and where it ends, if it fits.
#[tactic(auto, unfolding(crate::specs::Frames::blob, crate::specs::Frames::blob_end))]
fn blob(bytes: &[u8], at: usize) -> Option<(&[u8], usize)>
    requires { at ≤ 2 ^ 63 }
    ensures { MatchOption
        result
        (length bytes.now < blob_end bytes.now at)
        (λ part. (part.0.now ≡ blob bytes.now at) × (part.1 ≡ blob_end bytes.now at) × (part.1 ≤ length bytes.now)) }
{
    let start = at + 4;
    if bytes.len() < start {
        return None;
    }
    let end = start + sheets::le32_at(bytes, at) as usize;
    Some((bytes.get(start..end)?, end))
}

// A whole frame: its bytes, the four numbers, and the four blobs. They fill the bytes, which are neither cut nor too many.
#[derive(Clone, Copy)]
pub struct Frame<'a> {
    bytes: &'a [u8],
    pub i: u64,
    pub j: u64,
    pub a: FileOffset,
    pub b: FileOffset,
    pub sheet1: &'a [u8],
    pub sheet2: &'a [u8],
    // The source buffer.
    pub source: &'a [u8],
    // The destination buffer, as it was before the call.
    pub destination: &'a [u8],
    ghost whole: { Whole bytes.now },
    ghost number_i: { i ≡ i_of bytes.now },
    ghost number_j: { j ≡ j_of bytes.now },
    ghost number_a: { a.0 ≡ a_of bytes.now },
    ghost number_b: { b.0 ≡ b_of bytes.now },
    ghost first: { sheet1.now ≡ blob bytes.now 33 },
    ghost second: { sheet2.now ≡ blob bytes.now (end1 bytes.now) },
    ghost third: { source.now ≡ from_of bytes.now },
    ghost fourth: { destination.now ≡ into_of bytes.now },
}

impl<'a> Frame<'a> {
    // The frame that these bytes are, if they are one.
    #[tactic(auto, using(crate::proofs::Ends::blob_grows, crate::proofs::Ends::first_fits, crate::proofs::Ends::second_fits, crate::proofs::Ends::third_fits, crate::proofs::Ends::fourth_fits))]
    pub fn parse(bytes: &'a [u8]) -> Option<Frame<'a>>
        ensures { MatchOption result (¬ Whole bytes.now) (λ frame. frame.bytes.now ≡ bytes.now) }
    {
        let (sheet1, end1) = blob(bytes, BLOBS)?;
        let (sheet2, end2) = blob(bytes, end1)?;
        let (source, end3) = blob(bytes, end2)?;
        let (destination, end4) = blob(bytes, end3)?;
        if end4 < bytes.len() {
            return None;
        }
        Some(Frame {
            bytes,
            i: numbers::le64_at(bytes, I),
            j: numbers::le64_at(bytes, J),
            a: FileOffset(numbers::le64_at(bytes, A)),
            b: FileOffset(numbers::le64_at(bytes, B)),
            sheet1,
            sheet2,
            source,
            destination,
        })
    }

    // The call that its number names, if it names one.
    #[tactic(auto, using(crate::proofs::Ends::first_fits))]
    pub fn call(&self) -> Option<Call>
        ensures { let number = call_of self.now.bytes.now in
            MatchOption result (NamesNone number) (λ call. number_of call ≡ number) }
    {
        Call::try_from(self.bytes[0]).ok()
    }
}
