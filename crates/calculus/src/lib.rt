// The search's moves. What they mean stands in specs/, one file to a section of the scope paper.
#![tactic(auto)]

// What the solver's order does next. A clause goes by its number in the clause list.
#[derive(Clone, Copy)]
pub enum Move {
    // All literals of a clause are false.
    Conflict(u16),
    // A clause has no true literal and one undecided: that literal joins G.
    Unit(u16, u16),
    // Every clause has a true literal.
    Done,
    // The first undecided literal of the first clause with no true one.
    Split(u16),
}
