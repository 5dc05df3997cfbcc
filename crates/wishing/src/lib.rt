// Wishes within an allowance of questions. No code: the questions in their order, what an allowance comes to, and their theorems.
#![tactic(auto)]
