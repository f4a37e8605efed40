// Expressions read along a cursor, sound or silent: what is answered is the value, with the cursor behind the expression; None tells nothing,
// and the evaluators are asked.

#![tactic(auto)]

pub mod numbers;
pub mod places;
pub mod sets;
