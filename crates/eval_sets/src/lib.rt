// The evaluators of elements and sets, and the leaves of those of numbers and conditions: the value of what begins at the front of the bytes,
// in a state of one word for each variable.

#![tactic(auto)]

pub mod answers;
pub mod bytes;
pub mod first_bytes;
pub mod leaves;
pub mod sets;
pub mod troubles;
