// Rule 4: a node's children, by conditions, cost, effects, constraints and h, offered to the layer in the making.

ghost use Rattle.std.specs.Prelude.{◌≡◌, ◌++◌, ◌≤◌, length};
ghost use Rattle.model.specs.Numbers.{most_transitions};
ghost use Rattle.quick.specs.Sums.{Remembers};
ghost use Rattle.beam_order.specs.Slots.{header_words};
ghost use Rattle.steps.specs.InBytes.{Outlined};
ghost use Rattle.steps.specs.Allowed.{Allowed};
ghost use Rattle.beam.specs.Layers.{Indexed};
ghost use Rattle.search_expansion.specs.Expansion.{below_cost, Block, Arrives, bounded_in, tried_in, expand_in, Offered, Expandable, Grows, GrowsOfAny};

use crate::trials::{Arrival, Expanded, Found, Halt, Parent, Turn};
use beam::layer::{Inserted, insert};
use beam_order::slots::{HEADER_WORDS, f_in};
use costs::{hours, less};
use model::Cost;
use outline::layout::{PREPARED_WORDS, STATE_WORDS};
use quick::sums::{SUM_WORDS, forget};
use steps::answers::MoveAnswer;
use steps::bounds::child_bound;
use steps::check::combine;
use steps::moves::{allowed, allowed_step, transitions};

// Whether f is below the best cost.
pub fn below_best(best: Option<Found>, f: Cost) -> bool
    ensures { result ≡ below_cost best f }
{
    match best {
        Some(found) => less(f, found.cost),
        None => true,
    }
}

// Rule 4: offers a child to the layer in the making, if its f is below the best.
fn offer(
    layer: &mut [u64],
    model: &[u8],
    outline: &[u64; PREPARED_WORDS],
    n: usize,
    parent: Parent,
    header: &[u64; HEADER_WORDS],
    state: &[u64; STATE_WORDS],
) -> Inserted
    requires { Indexed outline.now parent.width n layer.old × (Outlined model.now outline.now × (length header.now ≡ header_words)) }
    ensures { Offered model.now outline.now n parent (header.now ++ state.now) layer.old layer.new result }
{
    let f = f_in(header, 0);
    if below_best(parent.best, f) {
        insert(layer, model, outline, parent.width, n, header, state)
    } else {
        Inserted {
            count: n,
            cut: false,
        }
    }
}

// The child that is arrived at, with this state: h, then the offer.
fn bounded(
    layer: &mut [u64],
    model: &[u8],
    outline: &[u64; PREPARED_WORDS],
    n: usize,
    parent: Parent,
    arrival: Arrival,
    state: &[u64; STATE_WORDS],
    sums: &mut [u64; SUM_WORDS],
) -> Expanded
    requires { Expandable model.now outline.now n parent layer.old × Arrives arrival × Remembers model.now outline.now sums.old }
    ensures { GrowsOfAny model.now outline.now n parent layer.old layer.new result (bounded_in model.now state.now parent.width arrival.transition arrival.cost) × Remembers model.now outline.now sums.new }
{
    let t = arrival.transition;
    let g = combine(model, outline, parent.g, arrival.cost);
    match child_bound(model, outline, state, sums) {
        Ok(h) => {
            let f = combine(model, outline, g, hours(h));
            let back = (parent.slot * 256 + t) as u64;
            let header = [g.high, g.low, g.moves, h, f.high, f.moves, back];
            let x = offer(layer, model, outline, n, parent, &header, state);
            Expanded {
                count: x.count,
                cut: x.cut,
                trial: Ok(()),
            }
        }
        Err(e) => Expanded {
            count: n,
            cut: false,
            trial: Err(Halt::At(e.number(), g, t)),
        },
    }
}

// A turn of the expansion of the node with this state, by a transition that is allowed. The child's words are lent, and are not made anew for each.
fn try_transition(
    layer: &mut [u64],
    model: &[u8],
    outline: &[u64; PREPARED_WORDS],
    turn: Turn,
    state: &[u64; STATE_WORDS],
    parent: Parent,
    child: &mut [u64; STATE_WORDS],
    sums: &mut [u64; SUM_WORDS],
) -> Expanded
    requires { Expandable model.now outline.now turn.count parent layer.old × Allowed model.now outline.now state.now turn.transition × Remembers model.now outline.now sums.old }
    ensures { Grows model.now outline.now turn.count parent state.now layer.old layer.new result (tried_in model.now parent.width turn.transition) × Remembers model.now outline.now sums.new }
{
    let n = turn.count;
    let t = turn.transition;
    match allowed_step(model, outline, state, t, child, sums) {
        MoveAnswer::Blocked => Expanded {
            count: n,
            cut: false,
            trial: Ok(()),
        },
        MoveAnswer::Moved(c) => {
            let arrival = Arrival {
                transition: t,
                cost: c,
            };
            bounded(layer, model, outline, n, parent, arrival, child, sums)
        }
        MoveAnswer::Before(e) => Expanded {
            count: n,
            cut: false,
            trial: Err(Halt::Before(e.number())),
        },
        MoveAnswer::After(c, e) => Expanded {
            count: n,
            cut: false,
            trial: Err(Halt::At(e.number(), combine(model, outline, parent.g, c), t)),
        },
    }
}

// The end of the block of transitions from a number on: 64 of them, or those that are left.
fn block_end(first: usize, all: usize) -> usize
    requires { (first ≤ all) × (all ≤ most_transitions) }
    ensures { Block first all result }
{
    if first + 64 < all {
        return first + 64;
    }
    all
}

// Expands the node with this state into the layer in the making. The guards of a block of transitions are asked at once; a transition that is not
// allowed is blocked, and not tried. The bounds' sums are remembered from child to child.
pub fn expand(
    layer: &mut [u64],
    model: &[u8],
    outline: &[u64; PREPARED_WORDS],
    n: usize,
    state: &[u64; STATE_WORDS],
    parent: Parent,
) -> Expanded
    requires { Expandable model.now outline.now n parent layer.old }
    ensures { Grows model.now outline.now n parent state.now layer.old layer.new result (expand_in model.now parent.width) }
{
    let all = transitions(model, outline);
    let mut count = n;
    let mut cut = false;
    let mut sums = [0u64; SUM_WORDS];
    forget(&mut sums);
    let mut child = [0u64; STATE_WORDS];
    let mut first: usize = 0;
    let mut end: usize = 0;
    let mut left: u64 = 0;
    // a block at a time, whose bits are the turns: an iterator would hold the state, the model and the outline
    loop {
        if left == 0 {
            if end == all {
                return Expanded {
                    count,
                    cut,
                    trial: Ok(()),
                };
            }
            first = end;
            end = block_end(first, all);
            left = allowed(outline, state, first, end);
        } else {
            let t = first + u64::trailing_zeros(left) as usize;
            left = left & (left - 1);
            let turn = Turn {
                count,
                transition: t,
            };
            let x = try_transition(
                layer, model, outline, turn, state, parent, &mut child, &mut sums,
            );
            count = x.count;
            cut = cut || x.cut;
            if x.trial.is_err() {
                return Expanded { cut, ..x };
            }
        }
    }
}
