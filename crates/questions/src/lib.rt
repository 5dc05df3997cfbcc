// Questions: lists of literals put to one table, and what their answers say of its settings. No code: definitions and theorems.
#![tactic(auto)]
