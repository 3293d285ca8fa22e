// Shares: what an element has of a window.
use families::{SubfileOffset, TrayPlace};

// Where an element's part of a tray starts and how long it is, how many of its bytes lie before the window, and how many a period has.
#[derive(Clone, Copy, Debug, PartialEq, Eq)]
pub struct Share {
    pub start: TrayPlace,
    pub count: u64,
    pub before: SubfileOffset,
    pub size: u64,
}

// What stands in a table before it is filled.
pub const NO_SHARE: Share = Share {
    start: TrayPlace(0),
    count: 0,
    before: SubfileOffset(0),
    size: 0,
};
