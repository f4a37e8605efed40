// One node of a layer: a base state, a state at the limit, or one to expand.

ghost use Rattle.std.specs.Prelude.{◌≡◌, ◌+◌, ◌-◌, ◌≤◌, ◌<◌, ◌^◌, length};
ghost use Rattle.beam_order.specs.Slots.{words_in};
ghost use Rattle.beam.specs.Nodes.{state_words};
ghost use Rattle.search_paths.specs.Routes.{Traceable};
ghost use Rattle.search_visits.specs.Work.{node_in, counted_in, advance_in, visit_in, Leaves};
ghost use Rattle.search_visits.specs.Visits.{NewBest, Reached, Limited, Counted, Told, Met, Growing, Keeps};

use crate::work::{Ending, Limits, Marks, Progress, Round, Spot, Verdict, Visited};
use beam_order::slots::{NEXT_AT, NEXT_END, SLOT_WORDS, STATE_AT, f_in, g_in};
use costs::at_most;
use laws::copy_words;
use model::Cost;
use outline::layout::{PREPARED_WORDS, STATE_WORDS};
use search_expansion::children::{below_best, expand};
use search_expansion::trials::{Expanded, Found, Halt, Parent};
use search_paths::current::copy_node;
use search_paths::trace::trace;
use search_tally::counted;
use steps::answers::Status;
use steps::conditions::status;

// Rule 2: a plan of k steps and cost g becomes best; the run is over if g is at most low.
fn new_best(k: usize, g: Cost, round: Round) -> Visited
    ensures { NewBest k g round result }
{
    let low = round.progress.low;
    let best = Found { cost: g, length: k };
    let improved = Round {
        improved: true,
        progress: Progress {
            best: Some(best),
            ..round.progress
        },
        ..round
    };
    if at_most(g, low) {
        if at_most(low, g) {
            return Visited {
                round: improved,
                next: Err(Ending::Decided(Verdict::Cheapest)),
            };
        }
        return Visited {
            round: improved,
            next: Err(Ending::Decided(Verdict::Contradicted)),
        };
    }
    Visited {
        round: improved,
        next: Ok(()),
    }
}

// Rule 2: the base state at a spot, its path costing g; the plan is written if it is best.
fn reached(words: &[u64], plan: &mut [u8], w: usize, spot: Spot, g: Cost, round: Round) -> Visited
    requires { Traceable plan.old w spot.layer × (spot.slot < w) }
    ensures { Reached words.now plan.old plan.new w spot.layer spot.slot g round result }
{
    let k = spot.layer;
    if below_best(round.progress.best, g) {
        trace(words, w, k, spot.slot, plan);
        return new_best(k, g, round);
    }
    Visited {
        round,
        next: Ok(()),
    }
}

// Rule 3: a state at the limit sets the length mark if its f is below the best cost.
fn at_limit(f: Cost, round: Round) -> Round
    ensures { Limited f round result }
{
    let below = below_best(round.progress.best, f);
    let length = round.marks.length || below;
    Round {
        marks: Marks {
            length,
            ..round.marks
        },
        ..round
    }
}

// The round with one expansion more.
fn count_one(round: Round) -> Round
    requires { round.progress.tally.expansions + 1 < 2 ^ 64 }
    ensures { Counted round result }
{
    let tally = counted(round.progress.tally);
    Round {
        progress: Progress {
            tally,
            ..round.progress
        },
        ..round
    }
}

// What the expansion of the node in slot i, its path costing g, makes of the round.
fn told(g: Cost, i: usize, x: Expanded, round: Round) -> Visited
    ensures { Told g i x round result }
{
    let width = round.marks.width || x.cut;
    let after = Round {
        count: x.count,
        marks: Marks {
            width,
            ..round.marks
        },
        ..round
    };
    let next = match x.trial {
        Ok(()) => Ok(()),
        Err(Halt::Before(e)) => Err(Ending::At(e, g, i)),
        Err(Halt::At(e, c, t)) => Err(Ending::Beyond(e, c, i, t)),
    };
    Visited { round: after, next }
}

// Rule 4: counts one expansion, and expands the node at a spot, whose state is at hand.
fn expand_node(
    words: &mut [u64],
    model: &[u8],
    outline: &[u64; PREPARED_WORDS],
    limits: Limits,
    spot: Spot,
    node: &[u64],
    state: &[u64; STATE_WORDS],
    round: Round,
) -> Visited
    requires { Met model.now outline.now words.old node.now limits.width limits.length spot.layer spot.slot round × Growing node.now state.now limits.length spot.layer round }
    ensures { Keeps model.now outline.now words.old words.new limits.width limits.length spot.layer round result (counted_in model.now limits.width (node_in model.now words.old limits.width spot.layer spot.slot node.now)) }
{
    let w = limits.width;
    let g = g_in(node, 0);
    let parent = Parent {
        slot: spot.slot,
        g,
        width: w,
        best: round.progress.best,
    };
    let a = NEXT_AT * w;
    let e = NEXT_END * w;
    let x = expand(&mut words[a..e], model, outline, round.count, state, parent);
    told(g, spot.slot, x, count_one(round))
}

// Rule 3: the unfinished state at a spot, with the words of its node.
fn advance(
    words: &mut [u64],
    model: &[u8],
    outline: &[u64; PREPARED_WORDS],
    limits: Limits,
    spot: Spot,
    node: &[u64],
    state: &[u64; STATE_WORDS],
    round: Round,
) -> Visited
    requires { Met model.now outline.now words.old node.now limits.width limits.length spot.layer spot.slot round × (state.now ≡ state_words node.now) }
    ensures { Keeps model.now outline.now words.old words.new limits.width limits.length spot.layer round result (advance_in model.now limits.budget limits.width (limits.length - spot.layer) (node_in model.now words.old limits.width spot.layer spot.slot node.now)) }
{
    if spot.layer == limits.length {
        let f = f_in(node, 0);
        return Visited {
            round: at_limit(f, round),
            next: Ok(()),
        };
    }
    if round.progress.tally.expansions < limits.budget {
        return expand_node(words, model, outline, limits, spot, node, state, round);
    }
    Visited {
        round,
        next: Err(Ending::Decided(Verdict::BudgetSpent)),
    }
}

// Rules 2 and 3: the node with these words, at a spot.
fn visit_node(
    words: &mut [u64],
    plan: &mut [u8],
    model: &[u8],
    outline: &[u64; PREPARED_WORDS],
    limits: Limits,
    spot: Spot,
    node: &[u64],
    round: Round,
) -> Visited
    requires { Met model.now outline.now words.old node.now limits.width limits.length spot.layer spot.slot round × (limits.length ≤ length plan.old) }
    ensures { Leaves model.now outline.now words.old words.new plan.old plan.new limits.width limits.length spot.layer round result (visit_in model.now limits.budget limits.width (limits.length - spot.layer) (node_in model.now words.old limits.width spot.layer spot.slot node.now)) }
{
    let g = g_in(node, 0);
    let mut state = [0u64; STATE_WORDS];
    copy_words(&node[STATE_AT..], &mut state);
    match status(model, outline, &state) {
        Ok(Status::Base) => reached(words, plan, limits.width, spot, g, round),
        Ok(Status::Unfinished) => advance(words, model, outline, limits, spot, node, &state, round),
        Err(e) => Visited {
            round,
            next: Err(Ending::At(e.number(), g, spot.slot)),
        },
    }
}

// Rules 2 and 3: takes the node at a spot.
pub fn visit(
    words: &mut [u64],
    plan: &mut [u8],
    model: &[u8],
    outline: &[u64; PREPARED_WORDS],
    limits: Limits,
    spot: Spot,
    round: Round,
) -> Visited
    requires { Met model.now outline.now words.old (words_in words.old spot.slot) limits.width limits.length spot.layer spot.slot round × (limits.length ≤ length plan.old) }
    ensures { Leaves model.now outline.now words.old words.new plan.old plan.new limits.width limits.length spot.layer round result (visit_in model.now limits.budget limits.width (limits.length - spot.layer) (node_in model.now words.old limits.width spot.layer spot.slot (words_in words.old spot.slot))) }
{
    let mut node = [0u64; SLOT_WORDS];
    copy_node(words, spot.slot, &mut node);
    visit_node(words, plan, model, outline, limits, spot, &node, round)
}
