// Numbers, sets and tables in machine words: the leaves of the evaluator, each equal to its definition in the lower layer.

#![tactic(auto)]

pub mod arithmetic;
pub mod literals;
pub mod sets;
pub mod sizes;
pub mod tables;
