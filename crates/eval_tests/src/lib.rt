// Conditions tested no further than their truth needs: the parts of a conjunction behind one that does not hold are not visited.

#![tactic(auto)]

ghost use Rattle.std.specs.Prelude.{◌≡◌, false, drop};
ghost use Rattle.eval_sets.specs.Answers.{past_condition};
ghost use Rattle.eval_sets.specs.Bounds.{ConditionRoom};
ghost use Rattle.eval_sets.specs.Runs.{environment, run_condition, connective_at};
ghost use Rattle.eval_tests.specs.Stopped.{stopped, TestPromise};

use eval_numbers::condition_from;
use eval_sets::answers::ConditionValue;
use eval_sets::troubles::Trouble;
use outline::layout::{PREPARED_WORDS, STATE_WORDS};

// The answer without its bytes where it does not hold.
fn stop(v: ConditionValue) -> ConditionValue
    ensures { result ≡ stopped v }
{
    match v {
        ConditionValue::Holds(b, n) => {
            if b {
                ConditionValue::Holds(true, n)
            } else {
                ConditionValue::Holds(false, 0)
            }
        }
        ConditionValue::Trouble(t) => ConditionValue::Trouble(t),
    }
}

// The same behind k bytes.
fn past(k: usize, v: ConditionValue) -> ConditionValue
    requires { ConditionRoom k v }
    ensures { result ≡ stopped (past_condition k v) }
{
    match v {
        ConditionValue::Holds(b, n) => {
            if b {
                ConditionValue::Holds(true, k + n)
            } else {
                ConditionValue::Holds(false, 0)
            }
        }
        ConditionValue::Trouble(t) => ConditionValue::Trouble(t),
    }
}

// 58, behind its byte: the second part is tested only where the first holds.
#[cycle(both_test_from)]
fn both(
    e: &[u8],
    at: usize,
    model: &[u8],
    state: &[u64; STATE_WORDS],
    outline: &[u64; PREPARED_WORDS],
    depth: usize,
) -> ConditionValue
    ensures { result ≡ stopped (connective_at false depth (environment model.now state.now outline.now) (drop at e.now)) }
{
    match test_from(e, at, model, state, outline, depth) {
        ConditionValue::Holds(holds, n) => {
            if holds {
                past(n, test_from(e, at + n, model, state, outline, depth))
            } else {
                ConditionValue::Holds(false, 0)
            }
        }
        ConditionValue::Trouble(t) => ConditionValue::Trouble(t),
    }
}

// Whether the condition that begins at a position holds, tested no further than it must.
#[cycle(both_test_from)]
fn test_from(
    e: &[u8],
    at: usize,
    model: &[u8],
    state: &[u64; STATE_WORDS],
    outline: &[u64; PREPARED_WORDS],
    depth: usize,
) -> ConditionValue
    ensures { result ≡ stopped (run_condition depth (environment model.now state.now outline.now) (drop at e.now)) }
{
    if depth == 0 {
        return ConditionValue::Trouble(Trouble::Nothing);
    }
    if e.len() <= at {
        return ConditionValue::Trouble(Trouble::Nothing);
    }
    if e[at] == 0x58 {
        return past(1, both(e, at + 1, model, state, outline, depth - 1));
    }
    stop(condition_from(e, at, model, state, outline, depth))
}

// Whether the condition at the front holds, tested no further than it must; one that is no conjunction costs one call.
pub fn test(
    e: &[u8],
    model: &[u8],
    state: &[u64; STATE_WORDS],
    outline: &[u64; PREPARED_WORDS],
    depth: usize,
) -> ConditionValue
    ensures run { result ≡ stopped (run_condition depth (environment model.now state.now outline.now) e.now) }
    ensures promise { TestPromise depth (environment model.now state.now outline.now) e.now result }
{
    if 0 < e.len() {
        if e[0] == 0x58 {
            return test_from(e, 0, model, state, outline, depth);
        }
    }
    stop(condition_from(e, 0, model, state, outline, depth))
}
