// The plan check: the target's constraints, then step by step, to the first trouble.

ghost use Rattle.std.specs.Prelude.{◌≡◌, ◌∷◌, ◌≤◌, ◌<◌, ◌^◌, length};
ghost use Rattle.model.specs.Values.{trouble};
ghost use Rattle.model.specs.Costs.{free, CostBelow};
ghost use Rattle.costs.specs.Costs.{Joinable};
ghost use Rattle.steps.specs.InBytes.{Outlined, state_in, target_in};
ghost use Rattle.steps.specs.Answers.{result_of};
ghost use Rattle.steps.specs.Follow.{costs_in, follow_in, follow_from_in, step_tried, finished, FollowsOn, CheckedIs};

use crate::answers::{Checked, MoveAnswer, Status};
use crate::conditions::{constraints_hold, status};
use crate::moves::step;
use crate::states::start;
use costs::hours;
use eval_sets::troubles::Trouble;
use model::Cost;
use outline::layout::{PREPARED_WORDS, RULE, STATE_WORDS};
use outline::word_at;
use quick::sums::{SUM_WORDS, forget};

// The cost of a path and of a step behind it, by the cost rule.
pub fn combine(model: &[u8], outline: &[u64; PREPARED_WORDS], g: Cost, c: Cost) -> Cost
    requires { Outlined model.now outline.now × Joinable g c }
    ensures { result ≡ (costs_in model.now).combine g c }
{
    costs::combine(word_at(outline, RULE), g, c)
}

// Tries one transition of a plan, no sum being remembered.
fn tried_step(
    model: &[u8],
    outline: &[u64; PREPARED_WORDS],
    state: &[u64; STATE_WORDS],
    t: u8,
    g: Cost,
    child: &mut [u64; STATE_WORDS],
) -> Result<Cost, Trouble>
    requires { Outlined model.now outline.now × CostBelow (2 ^ 63) g }
    ensures { FollowsOn model.now (step_tried model.now (state_in model.now state.now) t g) child.new g result }
{
    let mut sums = [0u64; SUM_WORDS];
    forget(&mut sums);
    match step(model, outline, state, t as usize, child, &mut sums) {
        MoveAnswer::Blocked => Err(Trouble::NotAPlan),
        MoveAnswer::Moved(c) => Ok(combine(model, outline, g, c)),
        MoveAnswer::Before(t) => Err(t),
        MoveAnswer::After(_, t) => Err(t),
    }
}

// One step of a plan: no base state before the end, then the transition.
fn checked_step(
    model: &[u8],
    outline: &[u64; PREPARED_WORDS],
    state: &[u64; STATE_WORDS],
    t: u8,
    g: Cost,
    child: &mut [u64; STATE_WORDS],
) -> Result<Cost, Trouble>
    requires { Outlined model.now outline.now × CostBelow (2 ^ 63) g }
    ensures { FollowsOn model.now (λ plan. follow_in model.now (t ∷ plan) (state_in model.now state.now) g) child.new g result }
{
    match status(model, outline, state)? {
        Status::Base => Err(Trouble::NotAPlan),
        Status::Unfinished => tried_step(model, outline, state, t, g, child),
    }
}

// A plan that is refused, with this number.
pub fn refused_plan(number: u8) -> Checked
    ensures { CheckedIs (trouble number) result }
{
    Checked {
        answer: number,
        cost: hours(0),
    }
}

// The final state, g being spent.
fn finish(
    model: &[u8],
    outline: &[u64; PREPARED_WORDS],
    state: &[u64; STATE_WORDS],
    g: Cost,
) -> Result<Cost, Trouble>
    requires { Outlined model.now outline.now }
    ensures { result ≡ result_of (finished model.now (state_in model.now state.now) g) }
{
    match status(model, outline, state)? {
        Status::Base => Ok(g),
        Status::Unfinished => Err(Trouble::NotAPlan),
    }
}

// Follows the steps of a plan from a state, whatever its own constraints: their cost, or the first trouble.
fn follow_steps(
    model: &[u8],
    outline: &[u64; PREPARED_WORDS],
    from: &[u64; STATE_WORDS],
    plan: &[u8],
) -> Result<Cost, Trouble>
    requires { Outlined model.now outline.now × (length plan.now ≤ 256) }
    ensures { result ≡ result_of (follow_in model.now plan.now (state_in model.now from.now) free) }
{
    let mut state = *from;
    let mut child = [0u64; STATE_WORDS];
    let mut g = hours(0);
    for t in plan {
        g = checked_step(model, outline, &state, *t, g, &mut child)?;
        state = child;
    }
    finish(model, outline, &state, g)
}

// The same from the target, which has to meet the constraints first.
fn follow_from_target(
    model: &[u8],
    outline: &[u64; PREPARED_WORDS],
    plan: &[u8],
) -> Result<Cost, Trouble>
    requires { Outlined model.now outline.now × (length plan.now ≤ 256) }
    ensures { result ≡ result_of (follow_from_in model.now plan.now (target_in model.now) free) }
{
    let mut target = [0u64; STATE_WORDS];
    start(model, outline, &mut target);
    let holds = constraints_hold(model, outline, &target)?;
    if holds {
        return follow_steps(model, outline, &target, plan);
    }
    Err(Trouble::NotAPlan)
}

// Follows a plan from the target, which has to meet the constraints first: 0 and its cost, or the number of the first trouble.
pub fn follow(model: &[u8], outline: &[u64; PREPARED_WORDS], plan: &[u8]) -> Checked
    requires { Outlined model.now outline.now × (length plan.now ≤ 256) }
    ensures { CheckedIs (follow_from_in model.now plan.now (target_in model.now) free) result }
{
    match follow_from_target(model, outline, plan) {
        Ok(cost) => Checked { answer: 0, cost },
        Err(t) => refused_plan(t.number()),
    }
}
