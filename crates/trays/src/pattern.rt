// A layout whose pattern is shared out.
ghost use Rattle.maps.specs.Selected.{PatternOk};
ghost use Rattle.trays.specs.Facts.{pattern_prop};

use families::Layout;

// A layout, which is lent, and the size of its pattern: every offset of the pattern is in exactly one of its elements. The
// window stands apart, since one serves both layouts of a move.
#[derive(Clone, Copy)]
pub struct Pattern<'a> {
    pub layout: &'a Layout,
    pub size: u32,
    pub ghost ok: { PatternOk layout.now size } by { pattern_prop _ _ },
}
