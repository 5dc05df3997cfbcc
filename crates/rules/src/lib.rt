// The steps of derivations. What they mean stands in specs/.
#![tactic(auto)]

// The version of a derivation's steps.
#[derive(Clone, Copy, PartialEq, Eq)]
pub enum Version {
    One,
    Two,
}

// A step: a rule letter, a position, and a clause's number or a literal.
#[derive(Clone, Copy)]
pub struct Step {
    pub rule: u8,
    pub position: u8,
    pub value: u16,
}
