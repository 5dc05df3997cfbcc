// The words of a DIMACS text. What they mean stands in specs/, one file to a part of the request.
#![tactic(auto)]

// What a word of the body says.
#[derive(Clone, Copy)]
pub enum Word {
    // No number of the format, or a variable over V.
    Malformed,
    // 0: the clause ends.
    End,
    // A variable or its negation: 2 × point, and one more for a negation.
    Literal(usize),
}
