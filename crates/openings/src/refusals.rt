// What a refusal tells: its number in 01's table, the sheet at fault (1 or 2, and 0 where it is none), the place, and the flag of number 11.
ghost use Rattle.std.specs.Prelude.{◌≡◌};
ghost use Rattle.openings.specs.Refusals.{sheet_number, told, blamed};

use crate::{Refusal, RefusedSheets, Which};
use std::error::Error;
use std::fmt;

impl Which {
    // A method beside the others here: a `From<Which> for u8` is no plainer, since its law would be a relation that says what this clause does.
    pub fn number(&self) -> u8
        ensures { result ≡ sheet_number self.now }
    {
        match self {
            Which::First => 1,
            Which::Second => 2,
        }
    }
}

// Numbers of 01, and 0 for none, as `told` says them and programs print them. The enum itself tells a refusal without them.
impl Refusal {
    pub fn number(&self) -> u8
        ensures { result ≡ (told self.now).number }
    {
        match self {
            Refusal::Sheet(_, refused) => refused.fault.number(),
            Refusal::Element => 12,
            Refusal::Before => 13,
            Refusal::Far => 14,
            Refusal::Window => 15,
            Refusal::Foreign => 16,
            Refusal::Buffer => 17,
            Refusal::Room(_) => 18,
        }
    }

    pub fn sheet(&self) -> u8
        ensures { result ≡ (told self.now).sheet }
    {
        match self {
            Refusal::Sheet(which, _) => which.number(),
            _ => 0,
        }
    }

    pub fn place(&self) -> u64
        ensures { result ≡ (told self.now).place }
    {
        match self {
            Refusal::Sheet(_, refused) => refused.place,
            Refusal::Room(runs) => *runs,
            _ => 0,
        }
    }

    pub fn flag(&self) -> u8
        ensures { result ≡ (told self.now).flag }
    {
        match self {
            Refusal::Sheet(_, refused) => refused.fault.flag(),
            _ => 0,
        }
    }
}

// What a call on two sheets says of refused ones. By hand, so that the law says which refusal a `?` hands on.
impl From<RefusedSheets> for Refusal {
    ghost from_gives = { λ both f. f ≡ blamed both };

    fn from(both: RefusedSheets) -> Refusal {
        match both {
            RefusedSheets::First { refused, .. } => Refusal::Sheet(Which::First, refused),
            RefusedSheets::Second { refused, .. } => Refusal::Sheet(Which::Second, refused),
        }
    }
}

impl fmt::Display for Which {
    fn fmt<W: fmt::Write>(&self, f: &mut fmt::Formatter<W>) -> fmt::Result {
        f.write_str(match self {
            Which::First => "the first sheet",
            Which::Second => "the second sheet",
        })
    }
}

impl fmt::Display for Refusal {
    fn fmt<W: fmt::Write>(&self, f: &mut fmt::Formatter<W>) -> fmt::Result {
        match self {
            Refusal::Sheet(which, refused) => write!(f, "{which}: {refused}"),
            Refusal::Element => f.write_str("the sheet has no such element"),
            Refusal::Before => f.write_str("it is before the displacement"),
            Refusal::Far => f.write_str("it is past the greatest file offset"),
            Refusal::Window => f.write_str("it ends before it starts"),
            Refusal::Foreign => f.write_str("the offset belongs to another element"),
            Refusal::Buffer => f.write_str("a buffer does not have the length that is asked for"),
            Refusal::Room(runs) => write!(f, "the list has no room for {runs} runs"),
        }
    }
}

impl Error for Refusal {}

// By hand, since a layout has no Debug.
impl fmt::Debug for RefusedSheets {
    fn fmt<W: fmt::Write>(&self, f: &mut fmt::Formatter<W>) -> fmt::Result {
        fmt::Debug::fmt(&Refusal::from(*self), f)
    }
}

impl fmt::Display for RefusedSheets {
    fn fmt<W: fmt::Write>(&self, f: &mut fmt::Formatter<W>) -> fmt::Result {
        fmt::Display::fmt(&Refusal::from(*self), f)
    }
}

impl Error for RefusedSheets {}
