// Rule 6: the end of a layer, and the layer behind it.

ghost use Rattle.std.specs.Prelude.{◌≡◌, ◌+◌, ◌*◌, ◌≤◌, ◌<◌, length};
ghost use Rattle.beam.specs.Layers.{Layer};
ghost use Rattle.search_paths.specs.Routes.{next_of};
ghost use Rattle.search_visits.specs.Work.{Ready};
ghost use Rattle.search_rounds.specs.Rounds.{Enterable, LayerEnds, PassesLayer};
ghost use Rattle.search_rounds.specs.Ends.{Remains, Raises, EntersNext};
ghost use Rattle.beam_order.specs.Slots.{backs_at};

use beam::layer::keep_below;
use beam_order::slots::{NEXT_AT, NEXT_END, ORDER_AT, SLOT_WORDS, f_in};
use costs::at_most;
use model::Cost;
use outline::layout::PREPARED_WORDS;
use search_expansion::trials::Found;
use search_paths::current::next_layer;
use search_visits::layers::layer;
use search_visits::work::{Ending, Limits, Progress, Round};

// A round after a layer: the layer behind it, of so many nodes, is current; or there is none, and the round is at its end; or the run is
// over.
#[derive(Clone, Copy)]
pub struct Passed {
    pub round: Round,
    pub next: Result<Option<usize>, Ending>,
}

// How many of the first nodes of the layer are left, those with f below the best.
fn remaining(layer: &[u64], w: usize, best: Option<Found>, count: usize) -> usize
    requires { Layer w count layer.now }
    ensures { Remains layer.now w best count result }
{
    match best {
        Some(found) => keep_below(layer, w, count, found.cost),
        None => count,
    }
}

// low, raised to the least f of the layer if that is greater, no width mark stands, and some nodes are left.
fn raised(layer: &[u64], w: usize, marked: bool, count: usize, low: Cost) -> Cost
    requires { Layer w count layer.now × (w ≤ 4096) }
    ensures { Raises layer.now w marked count low result }
{
    if marked || count == 0 {
        return low;
    }
    let slot = layer[ORDER_AT * w] as usize;
    let f = f_in(layer, slot * SLOT_WORDS);
    if at_most(f, low) { low } else { f }
}

// Rule 6: nodes with f not below the best go, and low rises.
fn layer_end(words: &[u64], w: usize, round: Round) -> Round
    requires { Layer w round.count (next_of w words.now) × ((0 < w) × (w ≤ 4096)) }
    ensures { LayerEnds words.now w round result }
{
    let a = NEXT_AT * w;
    let e = NEXT_END * w;
    let count = remaining(&words[a..e], w, round.progress.best, round.count);
    let marked = round.marks.width;
    let low = raised(&words[a..e], w, marked, count, round.progress.low);
    Round {
        count,
        progress: Progress {
            low,
            ..round.progress
        },
        ..round
    }
}

// Behind the end of layer k: makes the layer behind it current, and tells how many nodes it has, unless the round is at its end.
fn enter_next(
    words: &mut [u64],
    w: usize,
    limit: usize,
    k: usize,
    round: Round,
) -> (Round, Option<usize>)
    requires { Enterable words.old w limit k round.count }
    ensures { EntersNext words.old words.new w limit k round result.0 result.1 }
{
    if k == limit || round.count == 0 || round.improved {
        return (round, None);
    }
    next_layer(words, w, k, round.count);
    (Round { count: 0, ..round }, Some(round.count))
}

// Takes the n nodes of layer k, ends the layer, and makes the layer behind it current where the round has one.
pub fn pass_layer(
    words: &mut [u64],
    plan: &mut [u8],
    model: &[u8],
    outline: &[u64; PREPARED_WORDS],
    limits: Limits,
    k: usize,
    n: usize,
    round: Round,
) -> Passed
    requires { Ready model.now outline.now words.old plan.old limits.width limits.length k n round × ((round.count ≡ 0) × (backs_at * limits.width + limits.width * (limits.length + 1) ≤ length words.old)) }
    ensures { PassesLayer model.now outline.now words.old words.new plan.old plan.new limits.width limits.budget limits.length k n round result }
{
    let w = limits.width;
    let x = layer(words, plan, model, outline, limits, k, n, round);
    match x.next {
        Ok(()) => {
            let end = layer_end(words, w, x.round);
            let (after, follows) = enter_next(words, w, limits.length, k, end);
            Passed {
                round: after,
                next: Ok(follows),
            }
        }
        Err(e) => Passed {
            round: x.round,
            next: Err(e),
        },
    }
}
