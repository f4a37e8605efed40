// States and steps of a model, by its outline: the start, a state's status, a transition's move, h, dominance, a hash that
// agrees with it, and the plan check.

#![tactic(auto)]

pub mod answers;
pub mod bounds;
pub mod check;
pub mod conditions;
pub mod hashes;
pub mod moves;
pub mod parts;
pub mod states;
