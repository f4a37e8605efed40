// Conditions tried in order, the constraints of a state, and its status.

ghost use Rattle.std.specs.Prelude.{◌≡◌, ◌<◌, ◌≤◌, length, get_or};
ghost use Rattle.prepare.specs.Layout.{conjunct_count_at};
ghost use Rattle.steps.specs.InBytes.{Outlined, state_in, system_in};
ghost use Rattle.steps.specs.Answers.{result_of, status_answer};
ghost use Rattle.steps.specs.Says.{HeldSays, TestedSays, ConjunctSays};

use crate::answers::{HeldAnswer, Status};
use crate::parts::{condition_at, condition_near};
use eval_sets::answers::ConditionValue;
use eval_sets::troubles::Trouble;
use laws::byte_at;
use outline::layout::{
    BASE_CASE_COUNT, BASE_CASES, CONJUNCT_COUNT, CONJUNCTS, PREPARED_WORDS, STATE_WORDS,
};
use outline::word_at;
use prepare::guards::passes;
use quick::condition;

// Tries the conditions 08 from a place on.
pub fn conditions_hold(
    model: &[u8],
    at: usize,
    outline: &[u64; PREPARED_WORDS],
    state: &[u64; STATE_WORDS],
) -> HeldAnswer
    requires { Outlined model.now outline.now }
    ensures { HeldSays model.now at state.now result }
{
    let mut next = at;
    // a condition tells where the next one is: no range gives its places
    while byte_at(model, next) == 8 {
        match condition_near(model, next + 1, outline, state) {
            ConditionValue::Holds(holds, used) => {
                if holds {
                    next = next + 1 + used;
                } else {
                    return HeldAnswer::Fails;
                }
            }
            ConditionValue::Trouble(t) => return HeldAnswer::Trouble(t),
        }
    }
    HeldAnswer::All(next)
}

// Tries what a guard leaves of a transition's conditions. Most often that is none, which is told without a call.
pub fn rest_holds(
    model: &[u8],
    at: usize,
    outline: &[u64; PREPARED_WORDS],
    state: &[u64; STATE_WORDS],
) -> HeldAnswer
    requires { Outlined model.now outline.now }
    ensures { HeldSays model.now at state.now result }
{
    if byte_at(model, at) == 8 {
        return conditions_hold(model, at, outline, state);
    }
    HeldAnswer::All(at)
}

// Tries the condition at a place: in place where that decides it, else by the evaluators.
fn condition_holds(
    model: &[u8],
    at: usize,
    outline: &[u64; PREPARED_WORDS],
    state: &[u64; STATE_WORDS],
) -> Result<bool, Trouble>
    requires { Outlined model.now outline.now × (at ≤ length model.now) }
    ensures { TestedSays model.now at state.now result }
{
    if let Some(holds) = condition(model, at, outline, state) {
        return Ok(holds);
    }
    match condition_at(model, at, outline, state) {
        ConditionValue::Holds(holds, _) => Ok(holds),
        ConditionValue::Trouble(t) => Err(t),
    }
}

// Tries conjunct k of the state constraints: where its guard does not pass, it holds.
fn conjunct_holds(
    model: &[u8],
    outline: &[u64; PREPARED_WORDS],
    k: usize,
    state: &[u64; STATE_WORDS],
) -> Result<bool, Trouble>
    requires { Outlined model.now outline.now × (k < get_or outline.now conjunct_count_at 0) }
    ensures { ConjunctSays model.now outline.now k state.now result }
{
    if passes(outline, CONJUNCTS + 4 * k, state) {
        let at = word_at(outline, CONJUNCTS + 4 * k + 3) as usize;
        return condition_holds(model, at, outline, state);
    }
    Ok(true)
}

// Tries the state constraints, conjunct by conjunct.
pub fn constraints_hold(
    model: &[u8],
    outline: &[u64; PREPARED_WORDS],
    state: &[u64; STATE_WORDS],
) -> Result<bool, Trouble>
    requires { Outlined model.now outline.now }
    ensures { result ≡ result_of ((system_in model.now).admits (state_in model.now state.now)) }
{
    let count = word_at(outline, CONJUNCT_COUNT) as usize;
    for k in 0..count {
        let holds = conjunct_holds(model, outline, k, state)?;
        if !holds {
            return Ok(false);
        }
    }
    Ok(true)
}

// Tries the constraints of a child. A model without any is told without a call.
pub fn child_holds(
    model: &[u8],
    outline: &[u64; PREPARED_WORDS],
    state: &[u64; STATE_WORDS],
) -> Result<bool, Trouble>
    requires { Outlined model.now outline.now }
    ensures { result ≡ result_of ((system_in model.now).admits (state_in model.now state.now)) }
{
    if word_at(outline, CONJUNCT_COUNT) == 0 {
        return Ok(true);
    }
    constraints_hold(model, outline, state)
}

// Tries the base cases to the first that holds.
pub fn status(
    model: &[u8],
    outline: &[u64; PREPARED_WORDS],
    state: &[u64; STATE_WORDS],
) -> Result<Status, Trouble>
    requires { Outlined model.now outline.now }
    ensures { result ≡ status_answer ((system_in model.now).status (state_in model.now state.now)) }
{
    let count = word_at(outline, BASE_CASE_COUNT) as usize;
    for k in 0..count {
        let at = word_at(outline, BASE_CASES + k) as usize;
        match conditions_hold(model, at, outline, state) {
            HeldAnswer::All(_) => return Ok(Status::Base),
            HeldAnswer::Fails => {}
            HeldAnswer::Trouble(t) => return Err(t),
        }
    }
    Ok(Status::Unfinished)
}
