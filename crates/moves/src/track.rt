// The track that a walk goes on.
ghost use Rattle.maps.specs.Selected.{belongs};
ghost use Rattle.moves.specs.Strides.{Strides};
ghost use Rattle.moves.specs.Facts.{strides_prop};

use crate::ahead::Stride;
use maps::Subfile;

// A subfile with the table of its strides: from every byte of it they say how far its run and its next run are.
#[derive(Clone, Copy)]
pub struct Track<'a> {
    pub subfile: Subfile<'a>,
    pub strides: &'a [Stride],
    pub ghost ahead: { Strides subfile.selection (belongs subfile.selection subfile.families.now) strides.now } by { strides_prop _ _ _ },
}
