// Refusals: why a sheet is refused, and where.
ghost use Rattle.std.specs.Prelude.{◌≡◌};
ghost use Rattle.sheets.specs.Refusals.{fault_number, fault_flag};

use std::error::Error;
use std::fmt;

/// Why a sheet is refused: numbers 1 to 11 of 01's table. Number 11 is two, a hole or an overlap.
#[derive(Clone, Copy, Debug, PartialEq, Eq)]
pub enum Fault {
    Short,
    Kind,
    Length,
    Count,
    Many,
    Segment,
    Span,
    Order,
    Depth,
    Trailing,
    Hole,
    Overlap,
}

impl Fault {
    /// The fault's number in the table.
    pub fn number(self) -> u8
        ensures { result ≡ fault_number self }
    {
        match self {
            Fault::Short => 1,
            Fault::Kind => 2,
            Fault::Length => 3,
            Fault::Count => 4,
            Fault::Many => 5,
            Fault::Segment => 6,
            Fault::Span => 7,
            Fault::Order => 8,
            Fault::Depth => 9,
            Fault::Trailing => 10,
            Fault::Hole | Fault::Overlap => 11,
        }
    }

    /// The flag that goes with the number: 1 for a hole, 2 for an overlap, else 0.
    pub fn flag(self) -> u8
        ensures { result ≡ fault_flag self }
    {
        match self {
            Fault::Hole => 1,
            Fault::Overlap => 2,
            _ => 0,
        }
    }
}

/// A refused sheet: its first fault, and where it is. That is a record's start, or a pattern offset for a hole or an overlap.
#[derive(Clone, Copy, Debug, PartialEq, Eq)]
pub struct Refused {
    pub fault: Fault,
    pub place: u64,
}

impl fmt::Display for Fault {
    fn fmt<W: fmt::Write>(&self, f: &mut fmt::Formatter<W>) -> fmt::Result {
        f.write_str(match self {
            Fault::Short => "the sheet ends inside the record",
            Fault::Kind => "another kind of record is due",
            Fault::Length => "the record states another length than its kind has",
            Fault::Count => "a count is out of its range",
            Fault::Many => "there are more families than a sheet may have",
            Fault::Segment => "the family's segments break the rules",
            Fault::Span => "the family goes past what holds it",
            Fault::Order => "the family starts before its elder sibling ends",
            Fault::Depth => "the family has children below the last level",
            Fault::Trailing => "bytes follow the last record",
            Fault::Hole => "no element has the offset",
            Fault::Overlap => "more than one element has the offset",
        })
    }
}

impl Error for Fault {}

impl fmt::Display for Refused {
    fn fmt<W: fmt::Write>(&self, f: &mut fmt::Formatter<W>) -> fmt::Result {
        write!(f, "{} at {}", self.fault, self.place)
    }
}

impl Error for Refused {}
