// Pieces: the front of a run that one element of the first layout has, and where its bytes stand in the first tray.
ghost use Rattle.std.specs.Prelude.{◌≡◌, ◌+◌, ◌≤◌, ◌<◌, length};
ghost use Rattle.moves.specs.Strides.{stride_at};
ghost use Rattle.parts.specs.Pieces.{PieceOk, piece_at, SourceOk, source_of};

use crate::shares::Share;
use families::{FileOffset, SubfileOffset, TrayPlace};
use moves::Stride;

// A layout's displacement, pattern size and number of elements, which its table of owners goes with.
#[derive(Clone, Copy, Debug, PartialEq, Eq)]
pub struct Cycle {
    pub from: u32,
    pub period: u32,
    pub elements: usize,
}

// Whose the piece is, how long, its place in the period and how many whole periods lie before it.
#[derive(Clone, Copy, Debug, PartialEq, Eq)]
pub struct Piece {
    pub owner: usize,
    pub len: usize,
    pub place: usize,
    pub whole: u64,
}

// What is written down of the first layout: by place in its period who has it, what lies ahead there, and how many places before it are its owner's; and by
// element its share of a window. The owners stand apart, since the families are painted as bytes; so do the ranks, which no other table of strides has.
#[derive(Clone, Copy)]
pub struct Sources<'a> {
    pub cycle: Cycle,
    pub owners: &'a [u8],
    pub strides: &'a [Stride],
    pub ranks: &'a [u16],
    pub shares: &'a [Share],
}

impl<'a> Sources<'a> {
    // The piece of at most `run` offsets from x on.
    pub(crate) fn piece_at(&self, x: FileOffset, run: usize) -> Piece
        requires { PieceOk self.now.cycle self.now.owners.now self.now.strides.now x.0 }
        ensures { result ≡ piece_at self.now.cycle self.now.owners.now self.now.strides.now x.0 run }
    {
        let past = x.0 - u64::from(self.cycle.from);
        let period = u64::from(self.cycle.period);
        let place = (past % period) as usize;
        let strides = self.strides;
        let keep = usize::from(strides[place].run) + 1;
        Piece {
            owner: usize::from(self.owners[place]),
            len: run.min(keep),
            place,
            whole: past / period,
        }
    }

    // Where a piece's bytes stand in the first tray.
    pub(crate) fn source_of(&self, piece: Piece) -> TrayPlace
        requires { SourceOk self.now.ranks.now self.now.shares.now piece }
        ensures { result.0 ≡ source_of self.now.ranks.now self.now.shares.now piece }
    {
        let share = self.shares[piece.owner - 1];
        let rank = piece.whole * share.size + u64::from(self.ranks[piece.place]);
        maps::tray_place(share.start, share.before, SubfileOffset(rank))
    }

    // How far on the owner's next offset after a piece can be: one that is shorter than the run has ended its owner's stretch.
    pub(crate) fn beyond(&self, piece: Piece, run: usize) -> usize
        requires { piece.place < length self.now.strides.now }
        ensures ended { (piece.len < run → result ≡ (stride_at self.now.strides.now piece.place).hop + 1) }
        ensures whole { (run ≤ piece.len → result ≡ run) }
    {
        if piece.len < run {
            usize::from(self.strides[piece.place].hop) + 1
        } else {
            run
        }
    }
}
