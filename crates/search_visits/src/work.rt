// What a round and a run bring forward, beside the working words and the bytes of the best plan.

use model::Cost;
use search_expansion::trials::Found;
use search_tally::Tally;

// Document 01's verdicts.
#[derive(Clone, Copy)]
pub enum Verdict {
    Cheapest,
    NoPlan,
    WidthStop,
    LengthStop,
    BudgetSpent,
    Contradicted,
}

// What lasts over rounds: the best plan, if one was found, low, the tally of the run.
#[derive(Clone, Copy)]
pub struct Progress {
    pub best: Option<Found>,
    pub low: Cost,
    pub tally: Tally,
}

// The width of a round, the length limit and the budget.
#[derive(Clone, Copy)]
pub struct Limits {
    pub width: usize,
    pub length: usize,
    pub budget: u64,
}

// A slot of a layer.
#[derive(Clone, Copy)]
pub struct Spot {
    pub layer: usize,
    pub slot: usize,
}

// The width mark and the length mark.
#[derive(Clone, Copy)]
pub struct Marks {
    pub width: bool,
    pub length: bool,
}

// How many nodes are in the making, the marks, whether this round has found a better plan, and what lasts.
#[derive(Clone, Copy)]
pub struct Round {
    pub count: usize,
    pub marks: Marks,
    pub improved: bool,
    pub progress: Progress,
}

// How a run ends: with a verdict; or refused, with the trouble's number and the cost of the path, at the node of a slot, or at its
// child by a transition.
#[derive(Clone, Copy)]
pub enum Ending {
    Decided(Verdict),
    At(u8, Cost, usize),
    Beyond(u8, Cost, usize, usize),
}

// A round after some of its nodes were taken: it goes on, or the run is over.
#[derive(Clone, Copy)]
pub struct Visited {
    pub round: Round,
    pub next: Result<(), Ending>,
}
