// Expressions where they stand in the model's bytes. Numbers are lent the sums that are remembered.

ghost use Rattle.std.specs.Prelude.{◌≤◌, ◌<◌, ◌-◌, length};
ghost use Rattle.model.specs.Numbers.{most_objects};
ghost use Rattle.eval_sets.specs.Bounds.{NumberWithin, ConditionWithin};
ghost use Rattle.nested.specs.Known.{KnownAt};
ghost use Rattle.quick.specs.Sums.{Remembers};
ghost use Rattle.steps.specs.InBytes.{Outlined};
ghost use Rattle.steps.specs.Says.{ConditionSays, NumberSays, ElementSays, SetSays};

use cursor::numbers::{literal, shifted};
use cursor_conditions::conditions::short_comparison;
use eval_numbers::number;
use eval_sets::answers::{ConditionValue, ElementValue, SetValue, Told};
use eval_sets::sets::{element, set};
use eval_sets::troubles::Trouble;
use eval_tests::test;
use nested::rounded::rounded;
use outline::layout::{PREPARED_WORDS, STATE_WORDS};
use prepare::tests::is_member;
use quick::sets::membership;
use quick::sums::SUM_WORDS;

// Whether the condition at a place holds, and its bytes where it does.
pub fn condition_at(
    model: &[u8],
    at: usize,
    outline: &[u64; PREPARED_WORDS],
    state: &[u64; STATE_WORDS],
) -> ConditionValue
    requires { Outlined model.now outline.now × (at ≤ length model.now) }
    ensures { ConditionSays model.now at state.now result × ConditionWithin (length model.now - at) result }
{
    test(&model[at..], model, state, outline, 32)
}

// The same: a membership or a short comparison in place, else along a cursor where that tells it, else by the evaluators.
pub fn condition_near(
    model: &[u8],
    at: usize,
    outline: &[u64; PREPARED_WORDS],
    state: &[u64; STATE_WORDS],
) -> ConditionValue
    requires { Outlined model.now outline.now × (at ≤ length model.now) }
    ensures { ConditionSays model.now at state.now result × ConditionWithin (length model.now - at) result }
{
    if is_member(model, at) {
        if membership(model, at, state) {
            return ConditionValue::Holds(true, 5);
        }
        return ConditionValue::Holds(false, 0);
    }
    let whole = model;
    let mut near = at;
    if let Some(holds) = short_comparison(&whole, &mut near, outline, state) {
        if holds {
            let used = near - at;
            return ConditionValue::Holds(true, used);
        }
        return ConditionValue::Holds(false, 0);
    }
    let mut end = at;
    if let Some(holds) = cursor_conditions::conditions::test(&whole, &mut end, outline, state) {
        if holds {
            let used = end - at;
            return ConditionValue::Holds(true, used);
        }
        return ConditionValue::Holds(false, 0);
    }
    condition_at(model, at, outline, state)
}

// The value of the number at a place.
pub fn number_at(
    model: &[u8],
    at: usize,
    outline: &[u64; PREPARED_WORDS],
    state: &[u64; STATE_WORDS],
) -> Result<Told<i64>, Trouble>
    requires { Outlined model.now outline.now × (at ≤ length model.now) }
    ensures { NumberSays model.now at state.now result × NumberWithin (length model.now - at) result }
{
    number(&model[at..], model, state, outline, 32)
}

// The same, along a cursor where that tells it, else by the evaluators. A table's sum at `place` is known: `sum`.
fn number_with(
    model: &[u8],
    at: usize,
    outline: &[u64; PREPARED_WORDS],
    state: &[u64; STATE_WORDS],
    place: usize,
    sum: i64,
    sums: &mut [u64; SUM_WORDS],
) -> Result<Told<i64>, Trouble>
    requires { Outlined model.now outline.now × (at ≤ length model.now) × KnownAt model.now outline.now state.now place sum × Remembers model.now outline.now sums.old }
    ensures { NumberSays model.now at state.now result × NumberWithin (length model.now - at) result × Remembers model.now outline.now sums.new }
{
    let whole = model;
    let mut end = at;
    if let Some(z) = nested::number(&whole, &mut end, outline, state, place, sum, sums) {
        let used = end - at;
        return Ok(Told { value: z, used });
    }
    number_at(model, at, outline, state)
}

// The same, a quotient rounded up in place where a sum is known.
pub fn number_knowing(
    model: &[u8],
    at: usize,
    outline: &[u64; PREPARED_WORDS],
    state: &[u64; STATE_WORDS],
    place: usize,
    sum: i64,
    sums: &mut [u64; SUM_WORDS],
) -> Result<Told<i64>, Trouble>
    requires { Outlined model.now outline.now × (at ≤ length model.now) × KnownAt model.now outline.now state.now place sum × Remembers model.now outline.now sums.old }
    ensures { NumberSays model.now at state.now result × NumberWithin (length model.now - at) result × Remembers model.now outline.now sums.new }
{
    if place < model.len() {
        let whole = model;
        let mut end = at;
        if let Some(z) = rounded(&whole, &mut end, outline, state, place, sum) {
            let used = end - at;
            return Ok(Told { value: z, used });
        }
    }
    number_with(model, at, outline, state, place, sum, sums)
}

// The same with nothing known.
pub fn number_near(
    model: &[u8],
    at: usize,
    outline: &[u64; PREPARED_WORDS],
    state: &[u64; STATE_WORDS],
    sums: &mut [u64; SUM_WORDS],
) -> Result<Told<i64>, Trouble>
    requires { Outlined model.now outline.now × (at ≤ length model.now) × Remembers model.now outline.now sums.old }
    ensures { NumberSays model.now at state.now result × NumberWithin (length model.now - at) result × Remembers model.now outline.now sums.new }
{
    number_with(model, at, outline, state, model.len(), 0, sums)
}

// The same, a literal, or a variable with a literal added or taken off, in place.
pub fn number_short(
    model: &[u8],
    at: usize,
    outline: &[u64; PREPARED_WORDS],
    state: &[u64; STATE_WORDS],
    sums: &mut [u64; SUM_WORDS],
) -> Result<Told<i64>, Trouble>
    requires { Outlined model.now outline.now × (at ≤ length model.now) × Remembers model.now outline.now sums.old }
    ensures { NumberSays model.now at state.now result × NumberWithin (length model.now - at) result × Remembers model.now outline.now sums.new }
{
    let whole = model;
    let mut near = at;
    if let Some(z) = literal(&whole, &mut near, outline, state) {
        let used = near - at;
        return Ok(Told { value: z, used });
    }
    let mut end = at;
    if let Some(z) = shifted(&whole, &mut end, outline, state) {
        let used = end - at;
        return Ok(Told { value: z, used });
    }
    number_near(model, at, outline, state, sums)
}

// The object of the element at a place.
pub fn element_at(
    model: &[u8],
    at: usize,
    outline: &[u64; PREPARED_WORDS],
    state: &[u64; STATE_WORDS],
) -> ElementValue
    requires { Outlined model.now outline.now × (at ≤ length model.now) }
    ensures { ElementSays model.now at state.now result × ((result.object < most_objects) × (result.used ≤ length model.now - at)) }
{
    element(&model[at..], state)
}

// The members of the set at a place: along a cursor where that tells them, else by the evaluators.
pub fn set_at(
    model: &[u8],
    at: usize,
    outline: &[u64; PREPARED_WORDS],
    state: &[u64; STATE_WORDS],
) -> SetValue
    requires { Outlined model.now outline.now × (at ≤ length model.now) }
    ensures { SetSays model.now at state.now result × (result.used ≤ length model.now - at) }
{
    let whole = model;
    let mut end = at;
    let members = cursor::sets::set(&whole, &mut end, outline, state);
    if end == at {
        return set(&model[at..], state, outline, 32);
    }
    let used = end - at;
    SetValue {
        members,
        objects: 0,
        used,
    }
}
