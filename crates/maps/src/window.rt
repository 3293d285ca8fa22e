// A window of the file.
ghost use Rattle.maps.specs.Windows.{WindowOk};

use families::FileOffset;

// From `start` on, up to but not including `end`, which is the limit of file offsets at most.
#[derive(Clone, Copy, Debug, PartialEq, Eq)]
pub struct Window {
    pub start: FileOffset,
    pub end: FileOffset,
    pub ghost ok: { WindowOk start.0 end.0 },
}
