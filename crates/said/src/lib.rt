// Said: what an answer says, as seven numbers in a struct, whatever type the answer has. This is how programs print answers, and hand them on to other languages.
#![tactic(auto)]

ghost use Rattle.std.specs.Prelude.{◌≡◌, List, ℕ, [], ◌∷◌};
ghost use Rattle.openings.specs.Said.{done};
ghost use Rattle.openings.specs.Refusals.{refusal_says};
ghost use Rattle.astrephon.specs.Says.{says, fact_values, subfile_value, file_value, interval_values, number_value, no_values};
ghost use Rattle.said.specs.Answers.{answer_of};

use astrephon::{Facts, FileOffset, Interval, Refusal, SubfileOffset};

// Number 0 is a call that did its work; values that it does not give are 0. It is seven words, and no enum, since that is what programs print and hand on: docs/FRAMES.md has the line, and `fields` (answers, specs/Lines) says it.
#[derive(Clone, Copy, Debug, PartialEq, Eq)]
pub struct Answer {
    pub number: u64,
    pub sheet: u64,
    pub place: u64,
    pub flag: u64,
    pub value: u64,
    pub value2: u64,
    pub value3: u64,
}

// What a call gives that did its work: three values at most.
pub trait Values {
    ghost values: { Self → List ℕ };

    fn done(self) -> Answer
        ensures { result ≡ answer_of (done (values self)) };
}

// A call that did its work, with three values.
fn done(value: u64, value2: u64, value3: u64) -> Answer
    ensures { result ≡ answer_of (done (value ∷ value2 ∷ value3 ∷ [])) }
{
    Answer {
        number: 0,
        sheet: 0,
        place: 0,
        flag: 0,
        value,
        value2,
        value3,
    }
}

impl Values for Facts {
    ghost values = { fact_values };

    fn done(self) -> Answer {
        done(
            u64::from(self.size),
            u64::from(self.elements),
            u64::from(self.displacement),
        )
    }
}

impl Values for SubfileOffset {
    ghost values = { subfile_value };

    fn done(self) -> Answer {
        done(self.0, 0, 0)
    }
}

impl Values for FileOffset {
    ghost values = { file_value };

    fn done(self) -> Answer {
        done(self.0, 0, 0)
    }
}

impl Values for Interval {
    ghost values = { interval_values };

    fn done(self) -> Answer {
        done(self.first.0, self.last.0, 0)
    }
}

impl Values for u64 {
    ghost values = { number_value };

    fn done(self) -> Answer {
        done(self, 0, 0)
    }
}

impl Values for usize {
    ghost values = { number_value };

    fn done(self) -> Answer {
        done(self as u64, 0, 0)
    }
}

impl Values for () {
    ghost values = { no_values };

    fn done(self) -> Answer {
        done(0, 0, 0)
    }
}

fn refused(refusal: Refusal) -> Answer
    ensures { result ≡ answer_of (refusal_says refusal) }
{
    Answer {
        number: u64::from(refusal.number()),
        sheet: u64::from(refusal.sheet()),
        place: refusal.place(),
        flag: u64::from(refusal.flag()),
        value: 0,
        value2: 0,
        value3: 0,
    }
}

pub fn of_outcome<T: Values>(outcome: Result<T, Refusal>) -> Answer
    ensures { result ≡ answer_of (says T.values outcome) }
{
    match outcome {
        Ok(given) => given.done(),
        Err(refusal) => refused(refusal),
    }
}
