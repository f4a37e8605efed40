// A transition tried in a state: conditions, cost, effects, then the new state's constraints.
// The sums that are remembered are lent to every number of its cost and effects.

ghost use Rattle.std.specs.Prelude.{◌≡◌, cond, ◌+◌, ◌≤◌, ◌<◌, ◌-◌, length};
ghost use Rattle.model.specs.Numbers.{range_end, most_variables, most_transitions};
ghost use Rattle.model.specs.Steps as steps;
ghost use Rattle.outline.specs.Outline.{model_of};
ghost use Rattle.eval_sets.specs.Bounds.{NumberWithin};
ghost use Rattle.quick.specs.Sums.{Remembers};
ghost use Rattle.steps.specs.InBytes.{Outlined, StateRoom, state_in, system_in};
ghost use Rattle.steps.specs.Answers.{move_answer};
ghost use Rattle.steps.specs.Says.{NumberSays, RangeSays, CostsSay, CostWithin, NumberWordSays, WordSays, WordWithin, EffectsRead, EffectsSays, TakenRead, TakenSays, TransitionRead, AttemptSays, Tried, MoveSays};
ghost use Rattle.steps.specs.Allowed.{Allowed, allowed_from};

use crate::answers::{AttemptAnswer, HeldAnswer, MoveAnswer};
use crate::conditions::{child_holds, rest_holds};
use crate::parts::{element_at, number_near, number_short, set_at};
use costs::fixed;
use cursor::numbers::literal;
use eval_sets::answers::Told;
use eval_sets::troubles::Trouble;
use laws::byte_at;
use model::Cost;
use outline::layout::{GUARDS, KINDS, PREPARED_WORDS, STATE_WORDS, TRANSITION_COUNT};
use outline::word_at;
use prepare::guards::passes;
use quick::entries::{entry_at, is_entry};
use quick::sets::{changed, is_changed, is_joined, joined};
use quick::sums::SUM_WORDS;
use words::arithmetic::biased;
use words::sizes::MOST_OBJECTS;

// The value of the number at a place: a table's entry or a literal in place, terms or nested numbers along a cursor, any other by the evaluators.
fn cost_number(
    model: &[u8],
    at: usize,
    outline: &[u64; PREPARED_WORDS],
    state: &[u64; STATE_WORDS],
    sums: &mut [u64; SUM_WORDS],
) -> Result<Told<i64>, Trouble>
    requires { Outlined model.now outline.now × (at ≤ length model.now) × Remembers model.now outline.now sums.old }
    ensures { NumberSays model.now at state.now result × NumberWithin (length model.now - at) result × Remembers model.now outline.now sums.new }
{
    if is_entry(model, at) {
        let value = entry_at(model, at, outline, state);
        return Ok(Told { value, used: 6 });
    }
    let whole = model;
    let mut near = at;
    if let Some(z) = literal(&whole, &mut near, outline, state) {
        let used = near - at;
        return Ok(Told { value: z, used });
    }
    let mut end = at;
    if let Some(z) = cursor_conditions::terms::number(&whole, &mut end, outline, state) {
        let used = end - at;
        return Ok(Told { value: z, used });
    }
    number_near(model, at, outline, state, sums)
}

// What a step costs whose low cost is known, from 10 on; a high cost below the low one is trouble.
fn range_at(
    model: &[u8],
    at: usize,
    outline: &[u64; PREPARED_WORDS],
    state: &[u64; STATE_WORDS],
    low: u64,
    sums: &mut [u64; SUM_WORDS],
) -> Result<Told<Cost>, Trouble>
    requires { Outlined model.now outline.now × (at < length model.now) × Remembers model.now outline.now sums.old }
    ensures { RangeSays model.now at state.now low result × CostWithin (length model.now - at) result × Remembers model.now outline.now sums.new }
{
    let z = number_near(model, at + 1, outline, state, sums)?;
    if z.value < 0 {
        return Err(Trouble::HighBelowLow);
    }
    let high = z.value as u64;
    if high < low {
        return Err(Trouble::HighBelowLow);
    }
    let cost = Cost {
        high,
        low,
        moves: 0,
    };
    Ok(Told {
        value: cost,
        used: z.used + 1,
    })
}

// What a step costs, from 09 on: the low cost, then the high one where it is written. A negative number is trouble.
fn costs_at(
    model: &[u8],
    at: usize,
    outline: &[u64; PREPARED_WORDS],
    state: &[u64; STATE_WORDS],
    sums: &mut [u64; SUM_WORDS],
) -> Result<Told<Cost>, Trouble>
    requires { Outlined model.now outline.now × (at < length model.now) × Remembers model.now outline.now sums.old }
    ensures { CostsSay model.now at state.now result × CostWithin (length model.now - at) result × Remembers model.now outline.now sums.new }
{
    let z = cost_number(model, at + 1, outline, state, sums)?;
    if z.value < 0 {
        return Err(Trouble::NegativeCost);
    }
    let low = z.value as u64;
    let next = at + 1 + z.used;
    if byte_at(model, next) == 0x10 {
        let ranged = range_at(model, next, outline, state, low, sums)?;
        return Ok(Told {
            value: ranged.value,
            used: z.used + 1 + ranged.used,
        });
    }
    let cost = fixed(low);
    Ok(Told {
        value: cost,
        used: z.used + 1,
    })
}

// The word for a number variable.
fn number_word(
    model: &[u8],
    at: usize,
    outline: &[u64; PREPARED_WORDS],
    state: &[u64; STATE_WORDS],
    sums: &mut [u64; SUM_WORDS],
) -> Result<Told<u64>, Trouble>
    requires { Outlined model.now outline.now × (at ≤ length model.now) × Remembers model.now outline.now sums.old }
    ensures { NumberWordSays model.now at state.now result × WordWithin (length model.now - at) result × Remembers model.now outline.now sums.new }
{
    let z = number_short(model, at, outline, state, sums)?;
    Ok(Told {
        value: biased(z.value),
        used: z.used,
    })
}

// The word for variable v, by its kind; a set variable with an element added or taken out, or joined to a literal, in place.
fn word_for(
    model: &[u8],
    at: usize,
    outline: &[u64; PREPARED_WORDS],
    state: &[u64; STATE_WORDS],
    v: usize,
    sums: &mut [u64; SUM_WORDS],
) -> Result<Told<u64>, Trouble>
    requires { Outlined model.now outline.now × (at ≤ length model.now) × (v < most_variables) × Remembers model.now outline.now sums.old }
    ensures { WordSays model.now at state.now v result × WordWithin (length model.now - at) result × Remembers model.now outline.now sums.new }
{
    let kind = word_at(outline, KINDS + v);
    if kind == 0 {
        return number_word(model, at, outline, state, sums);
    }
    if kind <= MOST_OBJECTS {
        let e = element_at(model, at, outline, state);
        return Ok(Told {
            value: e.object,
            used: e.used,
        });
    }
    if is_changed(model, at) {
        return Ok(Told {
            value: changed(model, at, state),
            used: 5,
        });
    }
    if is_joined(model, at) {
        return Ok(Told {
            value: joined(model, at, state),
            used: 13,
        });
    }
    let s = set_at(model, at, outline, state);
    Ok(Told {
        value: s.members,
        used: s.used,
    })
}

// Writes the effects 0A from a place on into the child; each reads the old state.
fn effects(
    model: &[u8],
    at: usize,
    outline: &[u64; PREPARED_WORDS],
    state: &[u64; STATE_WORDS],
    child: &mut [u64; STATE_WORDS],
    sums: &mut [u64; SUM_WORDS],
) -> Result<(), Trouble>
    requires { Outlined model.now outline.now × EffectsRead model.now at × StateRoom child.old × Remembers model.now outline.now sums.old }
    ensures { EffectsSays model.now at state.now child.old child.new result × Remembers model.now outline.now sums.new }
{
    let mut next = at;
    // an effect tells where the next one is: no range gives its places
    while byte_at(model, next) == 10 {
        let v = byte_at(model, next + 1) as usize;
        let word = word_for(model, next + 2, outline, state, v, sums)?;
        child[v] = word.value;
        next = next + 2 + word.used;
    }
    Ok(())
}

// Costs and effects of a step whose conditions hold, from 09 on.
fn take(
    model: &[u8],
    at: usize,
    outline: &[u64; PREPARED_WORDS],
    state: &[u64; STATE_WORDS],
    child: &mut [u64; STATE_WORDS],
    sums: &mut [u64; SUM_WORDS],
) -> Result<Cost, Trouble>
    requires { Outlined model.now outline.now × TakenRead model.now at × StateRoom state.now × Remembers model.now outline.now sums.old }
    ensures { TakenSays model.now at state.now child.new result × Remembers model.now outline.now sums.new }
{
    let cost = costs_at(model, at, outline, state, sums)?;
    *child = *state;
    effects(model, at + cost.used, outline, state, child, sums)?;
    Ok(cost.value)
}

// Conditions, costs and effects of the transition at a place.
fn attempt(
    model: &[u8],
    at: usize,
    outline: &[u64; PREPARED_WORDS],
    state: &[u64; STATE_WORDS],
    child: &mut [u64; STATE_WORDS],
    sums: &mut [u64; SUM_WORDS],
) -> AttemptAnswer
    requires { Outlined model.now outline.now × TransitionRead model.now at × StateRoom state.now × Remembers model.now outline.now sums.old }
    ensures { AttemptSays model.now at state.now child.new result × Remembers model.now outline.now sums.new }
{
    match rest_holds(model, at, outline, state) {
        HeldAnswer::All(next) => match take(model, next, outline, state, child, sums) {
            Ok(cost) => AttemptAnswer::Taken(cost),
            Err(t) => AttemptAnswer::Trouble(t),
        },
        HeldAnswer::Fails => AttemptAnswer::NotTaken,
        HeldAnswer::Trouble(t) => AttemptAnswer::Trouble(t),
    }
}

// The constraints of a new state, reached at a cost.
fn constrained(
    model: &[u8],
    outline: &[u64; PREPARED_WORDS],
    child: &[u64; STATE_WORDS],
    cost: Cost,
) -> MoveAnswer
    requires { Outlined model.now outline.now }
    ensures { result ≡ move_answer (steps.constrained range_end (model_of model.now) cost (state_in model.now child.now) ((system_in model.now).admits (state_in model.now child.now))) }
{
    match child_holds(model, outline, child) {
        Ok(holds) => {
            if holds {
                MoveAnswer::Moved(cost)
            } else {
                MoveAnswer::Blocked
            }
        }
        Err(t) => MoveAnswer::After(cost, t),
    }
}

// The move that was tried: where it is taken, the new state has to meet the constraints.
fn settle(
    model: &[u8],
    outline: &[u64; PREPARED_WORDS],
    state: &[u64; STATE_WORDS],
    t: usize,
    child: &[u64; STATE_WORDS],
    tried: AttemptAnswer,
) -> MoveAnswer
    requires { Outlined model.now outline.now × Tried model.now state.now t child.now tried }
    ensures { MoveSays model.now state.now t child.now result }
{
    match tried {
        AttemptAnswer::NotTaken => MoveAnswer::Blocked,
        AttemptAnswer::Taken(cost) => constrained(model, outline, child, cost),
        AttemptAnswer::Trouble(t) => MoveAnswer::Before(t),
    }
}

// How many transitions there are.
pub fn transitions(model: &[u8], outline: &[u64; PREPARED_WORDS]) -> usize
    requires { Outlined model.now outline.now }
    ensures { result ≡ (system_in model.now).transitions }
{
    word_at(outline, TRANSITION_COUNT) as usize
}

// 1 for true.
fn digit(b: bool) -> u64
    ensures { result ≡ cond b 1 0 }
{
    u64::from(b)
}

// Which transitions from `first` to `end` have guards that pass in a state: bit k for transition first + k. The others are blocked.
pub fn allowed(outline: &[u64; PREPARED_WORDS], state: &[u64], first: usize, end: usize) -> u64
    requires { (first ≤ end) × (end ≤ first + 64) × (end ≤ most_transitions) }
    ensures { result ≡ allowed_from outline.now state.now (end - first) first }
{
    let mut mask: u64 = 0;
    for t in (first..end).rev() {
        mask = mask + mask + digit(passes(outline, GUARDS + 4 * t, state));
    }
    mask
}

// Tries transition t, whose guard passes, and writes the new state's words.
pub fn allowed_step(
    model: &[u8],
    outline: &[u64; PREPARED_WORDS],
    state: &[u64; STATE_WORDS],
    t: usize,
    child: &mut [u64; STATE_WORDS],
    sums: &mut [u64; SUM_WORDS],
) -> MoveAnswer
    requires { Outlined model.now outline.now × Allowed model.now outline.now state.now t × Remembers model.now outline.now sums.old }
    ensures { MoveSays model.now state.now t child.new result × Remembers model.now outline.now sums.new }
{
    let at = word_at(outline, GUARDS + 4 * t + 3) as usize;
    let tried = attempt(model, at, outline, state, child, sums);
    settle(model, outline, state, t, child, tried)
}

// Tries transition t in a state, and writes the new state's words. A number that is not declared is blocked.
pub fn step(
    model: &[u8],
    outline: &[u64; PREPARED_WORDS],
    state: &[u64; STATE_WORDS],
    t: usize,
    child: &mut [u64; STATE_WORDS],
    sums: &mut [u64; SUM_WORDS],
) -> MoveAnswer
    requires { Outlined model.now outline.now × Remembers model.now outline.now sums.old }
    ensures { MoveSays model.now state.now t child.new result × Remembers model.now outline.now sums.new }
{
    if transitions(model, outline) <= t {
        return MoveAnswer::Blocked;
    }
    if passes(outline, GUARDS + 4 * t, state) {
        return allowed_step(model, outline, state, t, child, sums);
    }
    MoveAnswer::Blocked
}
