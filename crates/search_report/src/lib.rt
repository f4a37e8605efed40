// The answer of a run that is over: its fields, its steps in the plan buffer, and the same in numbers.

#![tactic(auto)]

pub mod answers;
pub mod figures;
pub mod report;
