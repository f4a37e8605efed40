// Conditions, and numbers with conditions inside, read along a cursor, sound or silent.

#![tactic(auto)]

pub mod conditions;
pub mod terms;
