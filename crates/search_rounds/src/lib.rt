// A round: the root alone, then layer behind layer (rules 1 and 6).

#![tactic(auto)]

pub mod ends;

ghost use Rattle.search_rounds.specs.Rounds.{Roundable, RoundEnds};

use crate::ends::pass_layer;
use beam_order::slots::SLOT_WORDS;
use outline::layout::PREPARED_WORDS;
use search_paths::current::start_round;
use search_visits::work::{Ending, Limits, Marks, Progress, Round};

// A round at its end, or where the run was over: in layer `layer`.
#[derive(Clone, Copy)]
pub struct Ended {
    pub round: Round,
    pub next: Result<(), Ending>,
    pub layer: usize,
}

// A round from the root.
pub fn round(
    words: &mut [u64],
    plan: &mut [u8],
    model: &[u8],
    outline: &[u64; PREPARED_WORDS],
    limits: Limits,
    root: &[u64; SLOT_WORDS],
    progress: Progress,
) -> Ended
    requires { Roundable model.now outline.now root.now words.old plan.old limits.width limits.length progress }
    ensures { RoundEnds model.now root.now words.new plan.old plan.new limits.width limits.budget limits.length progress result }
{
    start_round(words, root, limits.width);
    let mut now = Round {
        count: 0,
        marks: Marks {
            width: false,
            length: false,
        },
        improved: false,
        progress,
    };
    let mut k: usize = 0;
    let mut n: usize = 1;
    // a layer tells whether another follows: no range gives how many there are
    loop {
        let x = pass_layer(words, plan, model, outline, limits, k, n, now);
        now = x.round;
        match x.next {
            Ok(Some(nodes)) => {
                k += 1;
                n = nodes;
            }
            Ok(None) => {
                return Ended {
                    round: now,
                    next: Ok(()),
                    layer: k,
                };
            }
            Err(e) => {
                return Ended {
                    round: now,
                    next: Err(e),
                    layer: k,
                };
            }
        }
    }
}
