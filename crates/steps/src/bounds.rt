// h of a state: the greatest of 0 and the bounds.

ghost use Rattle.std.specs.Prelude.{◌≡◌, ◌≤◌, ◌<◌, length};
ghost use Rattle.model.specs.Steps as steps;
ghost use Rattle.outline.specs.Outline.{model_of};
ghost use Rattle.quick.specs.Sums.{Remembers};
ghost use Rattle.steps.specs.InBytes.{Outlined, state_in, bound_in};
ghost use Rattle.steps.specs.Answers.{result_of};
ghost use Rattle.steps.specs.Says.{BoundSays, InnerPlace};

use crate::parts::number_knowing;
use eval_sets::answers::Told;
use eval_sets::troubles::Trouble;
use outline::layout::{BOUND_COUNT, BOUNDS, PREPARED_WORDS, STATE_WORDS};
use outline::word_at;
use quick::sums::{SUM_WORDS, bound_sum, inner_sum};
use words::arithmetic::in_range;

// The greater of h and a bound's number.
fn raise(h: u64, z: i64) -> u64
    ensures { result ≡ steps.raise h z }
{
    if z < 0 {
        return h;
    }
    h.max(z as u64)
}

// Where the sum inside the bound at a place stands, if it is told; else behind the last byte.
fn inner_place(model: &[u8], at: usize, inner: i64) -> usize
    requires { at ≤ length model.now }
    ensures { InnerPlace model.now at inner result }
{
    if in_range(inner) {
        return at + 14;
    }
    model.len()
}

// The value of bound k, a table's sum in it by its difference from the last one.
fn bound_number(
    model: &[u8],
    outline: &[u64; PREPARED_WORDS],
    state: &[u64; STATE_WORDS],
    sums: &mut [u64; SUM_WORDS],
    k: usize,
) -> Result<Told<i64>, Trouble>
    requires { Outlined model.now outline.now × Remembers model.now outline.now sums.old × (k < length (model_of model.now).bounds) }
    ensures { BoundSays model.now outline.now state.now k result × Remembers model.now outline.now sums.new }
{
    let z = bound_sum(model, outline, state, sums, k);
    if in_range(z) {
        return Ok(Told { value: z, used: 0 });
    }
    let at = word_at(outline, BOUNDS + k) as usize;
    let inner = inner_sum(model, outline, state, sums, k);
    let place = inner_place(model, at, inner);
    let whole = model;
    number_knowing(whole, at, outline, state, place, inner, sums)
}

// Evaluates the bounds in their order.
pub fn bound(
    model: &[u8],
    outline: &[u64; PREPARED_WORDS],
    state: &[u64; STATE_WORDS],
    sums: &mut [u64; SUM_WORDS],
) -> Result<u64, Trouble>
    requires { Outlined model.now outline.now × Remembers model.now outline.now sums.old }
    ensures { (result ≡ result_of (bound_in model.now (state_in model.now state.now))) × Remembers model.now outline.now sums.new }
{
    let count = word_at(outline, BOUND_COUNT) as usize;
    let mut h: u64 = 0;
    for k in 0..count {
        let z = bound_number(model, outline, state, sums, k)?;
        h = raise(h, z.value);
    }
    Ok(h)
}

// h of a child. In a model without bounds it is told without a call.
pub fn child_bound(
    model: &[u8],
    outline: &[u64; PREPARED_WORDS],
    state: &[u64; STATE_WORDS],
    sums: &mut [u64; SUM_WORDS],
) -> Result<u64, Trouble>
    requires { Outlined model.now outline.now × Remembers model.now outline.now sums.old }
    ensures { (result ≡ result_of (bound_in model.now (state_in model.now state.now))) × Remembers model.now outline.now sums.new }
{
    if word_at(outline, BOUND_COUNT) == 0 {
        return Ok(0);
    }
    bound(model, outline, state, sums)
}
