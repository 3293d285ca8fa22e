// Families: a decoded layout, and which pattern offsets its nested families of line segments select.
//
// `segments` looks at one family, `siblings` at a list of them, `nested` at a family with its children (membership, size, end,
// rank, inverse, painting), and `painting` writes down which element owns each offset of a pattern.
#![tactic(auto)]

mod nested;
mod painting;
mod segments;
mod siblings;

pub use painting::owners;
pub use siblings::Siblings;

// A family of 01 with its numbers; `span` counts it and all its descendants.
#[derive(Clone, Copy, Debug, PartialEq, Eq)]
pub struct Family {
    pub l: u32,
    pub r: u32,
    pub s: u32,
    pub n: u32,
    pub children: u32,
    pub span: u32,
}

// An element: where its families start, how many top families it has, and how many families of all levels.
#[derive(Clone, Copy, Debug, PartialEq, Eq)]
pub struct Element {
    pub first: usize,
    pub tops: u32,
    pub span: u32,
}

// A decoded layout. `elements` and `families` say how much of each array is in use. 01 names this form: arrays of structs with
// their counts, passed by value. That it meets the sheet rules (`LayoutOk`) is a clause and not in its type: their bound is a
// table's length here and a sheet's limit there.
#[derive(Clone, Copy)]
pub struct Layout {
    pub displacement: u32,
    pub elements: usize,
    pub families: usize,
    pub element: [Element; 16],
    pub family: [Family; 256],
}

// The three counts of 01, which the code keeps apart: an offset in the file, one in an element's subfile, a place in a tray.
#[derive(Clone, Copy, Debug, PartialEq, Eq)]
pub struct FileOffset(pub u64);

#[derive(Clone, Copy, Debug, PartialEq, Eq)]
pub struct SubfileOffset(pub u64);

#[derive(Clone, Copy, Debug, PartialEq, Eq)]
pub struct TrayPlace(pub u64);
