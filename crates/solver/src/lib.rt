// The search on the bytes of a model: its answer, and the plan in the caller's buffer.

#![tactic(auto)]

pub mod buffers;
pub mod entry;
pub mod lists;
pub mod load;
pub mod roots;
