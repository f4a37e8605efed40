// The answer of a search.

use model::Cost;
use search_tally::Tally;
use search_visits::work::Verdict;

// Refused by the state, or by the input, with the refusal's number.
#[derive(Clone, Copy)]
pub enum Refusal {
    ByState(u8),
    ByInput(u8),
}

// Document 01's fields; the plan's bytes are in the caller's buffer.
#[derive(Clone, Copy)]
pub struct Answer {
    pub outcome: Result<Verdict, Refusal>,
    pub flag: bool,
    pub cost: Cost,
    pub bound: Cost,
    pub length: usize,
    pub tally: Tally,
}

// The same in numbers, for C: `refused` is 1 at a refusal and 0 at a verdict, `verdict` the number of either.
#[repr(C)]
#[derive(Clone, Copy)]
pub struct Fields {
    pub refused: u32,
    pub verdict: u32,
    pub flag: u64,
    pub cost: u64,
    pub bound: u64,
    pub length: u64,
    pub expansions: u64,
    pub rounds: u64,
    pub width: u64,
    pub low: u64,
}
