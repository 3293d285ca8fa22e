// Choices: what is moved, all or what one pair of elements shares.
ghost use Rattle.std.specs.Prelude.{◌≡◌, ◌≤◌, ◌<◌};
ghost use Rattle.parts.specs.Pieces.{every_pair, one_pair, taken_from};

// What is moved: to the elements from `first` up to but not including `last` of the second layout, what element `only` of the first has, or all.
#[derive(Clone, Copy, Debug, PartialEq, Eq)]
pub struct Chosen {
    pub only: Option<usize>,
    pub first: usize,
    pub last: usize,
}

// What a move moves: all, to each of so many elements.
pub fn every_pair(elements: usize) -> Chosen
    ensures { result ≡ every_pair elements }
{
    Chosen {
        only: None,
        first: 0,
        last: elements,
    }
}

// What a pair move moves.
pub fn one_pair(i: usize, j: usize) -> Chosen
    requires { (i < 16) × (j < 16) }
    ensures { result ≡ one_pair i j }
{
    Chosen {
        only: Some(i),
        first: j,
        last: j + 1,
    }
}

// Whether what an owner has is moved: element e has the number e + 1.
pub fn takes(only: Option<usize>, owner: usize) -> bool
    requires { 1 ≤ owner }
    ensures { result ≡ taken_from only owner }
{
    match only {
        None => true,
        Some(element) => element == owner - 1,
    }
}
