// The rounds of a run, at the widths of a list that rises, each judged by rule 7.

#![tactic(auto)]

pub mod judges;

ghost use Rattle.std.specs.Prelude.{◌≡◌, ◌+◌, ◌<◌, ◌^◌};
ghost use Rattle.search_rounds.specs.Rounds.{Roundable};
ghost use Rattle.search_runs.specs.Runs.{Runnable, Runs};
ghost use Rattle.search_runs.specs.Widths.{begins_at, RoundJudged};

use crate::judges::judge;
use beam_order::slots::{SLOT_WORDS, f_in};
use beam_widths::{next_place, width_at};
use outline::layout::PREPARED_WORDS;
use search_rounds::round;
use search_tally::{Tally, begun};
use search_visits::work::{Ending, Limits, Progress, Verdict};

// A run that is over, in this layer.
#[derive(Clone, Copy)]
pub struct Stop {
    pub ending: Ending,
    pub progress: Progress,
    pub layer: usize,
}

// What a round leaves, with rule 7 applied: another round follows, or the run is over, in this layer.
#[derive(Clone, Copy)]
pub struct Judged {
    pub next: Result<(), Ending>,
    pub progress: Progress,
    pub layer: usize,
}

// What lasts, once a round of this width has begun.
fn begin(progress: Progress, width: usize) -> Progress
    requires { progress.tally.rounds + 1 < 2 ^ 64 }
    ensures { result ≡ begins_at width progress }
{
    let tally = begun(progress.tally, width as u64);
    Progress { tally, ..progress }
}

// A round of this width, and what follows it; last tells that no entry of the list is behind it.
fn judged_round(
    words: &mut [u64],
    plan: &mut [u8],
    model: &[u8],
    outline: &[u64; PREPARED_WORDS],
    limits: Limits,
    last: bool,
    root: &[u64; SLOT_WORDS],
    progress: Progress,
) -> Judged
    requires { Roundable model.now outline.now root.now words.old plan.old limits.width limits.length progress }
    ensures { RoundJudged model.now root.now words.new plan.old plan.new last limits.budget limits.length limits.width progress result }
{
    let x = round(words, plan, model, outline, limits, root, progress);
    let next = match x.next {
        Ok(()) => match judge(x.round, last) {
            Some(verdict) => Err(Ending::Decided(verdict)),
            None => Ok(()),
        },
        Err(e) => Err(e),
    };
    Judged {
        next,
        progress: x.round.progress,
        layer: x.layer,
    }
}

// The rounds from the root on: the first at the first entry of the list, each later one at the next.
pub fn rounds(
    words: &mut [u64],
    plan: &mut [u8],
    model: &[u8],
    outline: &[u64; PREPARED_WORDS],
    widths: &[u16],
    length: usize,
    budget: u64,
    root: &[u64; SLOT_WORDS],
) -> Stop
    requires { Runnable model.now outline.now root.now words.old plan.old widths.now length budget }
    ensures { Runs model.now root.now words.new plan.new widths.now budget length result }
{
    let count = widths.len();
    let unbegun = Progress {
        best: None,
        low: f_in(root, 0),
        tally: Tally {
            expansions: 0,
            rounds: 0,
            width: 0,
        },
    };
    let mut place: usize = 0;
    let mut progress = begin(unbegun, width_at(widths, 0));
    for _round in 0..budget + 1 {
        let limits = Limits {
            width: width_at(widths, place),
            length,
            budget,
        };
        let last = place + 1 == count;
        let x = judged_round(words, plan, model, outline, limits, last, root, progress);
        match x.next {
            Ok(()) => {
                place = next_place(place, count);
                progress = begin(x.progress, width_at(widths, place));
            }
            Err(ending) => {
                return Stop {
                    ending,
                    progress: x.progress,
                    layer: x.layer,
                };
            }
        }
    }
    // never reached: a round that is followed by another has expanded a state
    Stop {
        ending: Ending::Decided(Verdict::BudgetSpent),
        progress,
        layer: 0,
    }
}
