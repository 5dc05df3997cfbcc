// The data types that the calls share. What they mean stands in specs/, one file to a section of the scope paper.
#![tactic(auto)]

// A refusal: its number, and the place where it shows.
#[derive(Clone, Copy)]
pub struct Refusal {
    pub number: u16,
    pub place: usize,
}

// What tables and derivations each say of their blocks: the letter, the width of a record in bytes, how many records a full
// block has, and the number of the first of a block's three refusals.
#[derive(Clone, Copy)]
pub struct Format {
    pub letter: u8,
    pub width: usize,
    pub capacity: usize,
    pub number: u16,
}

// A node of a table: the fields of its record.
#[derive(Clone, Copy)]
pub struct Node {
    pub kind: u8,
    pub a: u16,
    pub b: u16,
    pub c: u16,
}

// A literal's truth under a setting in which points may go either way.
#[derive(Clone, Copy)]
pub enum Truth {
    Yes,
    No,
    Unknown,
}
