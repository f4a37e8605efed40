// The evaluators and the insertion, to be timed; see host/bench. crates/bench_parts_c exports these functions to C.

#![tactic(auto)]

pub mod insertions;

ghost use Rattle.std.specs.Prelude.{◌≡◌};
ghost use Rattle.eval_sets.specs.Runs.{environment, run_number, run_condition};
ghost use Rattle.bench_parts.specs.Timed.{number_code, condition_code};

use eval_sets::answers::ConditionValue;
use outline::layout::{PREPARED_WORDS, STATE_WORDS};

// The value of the number at the front of e, or the least i64 for trouble.
pub fn repgypsum_number_value(
    e: &[u8],
    model: &[u8],
    state: &[u64; STATE_WORDS],
    outline: &[u64; PREPARED_WORDS],
) -> i64
    ensures { result ≡ number_code (run_number 32 (environment model.now state.now outline.now) e.now) }
{
    match eval_numbers::number(e, model, state, outline, 32) {
        Ok(z) => z.value,
        Err(_) => -9223372036854775808,
    }
}

// Whether the condition at the front of e holds: 1, 0, or 2 for trouble.
pub fn repgypsum_condition_value(
    e: &[u8],
    model: &[u8],
    state: &[u64; STATE_WORDS],
    outline: &[u64; PREPARED_WORDS],
) -> u8
    ensures { result ≡ condition_code (run_condition 32 (environment model.now state.now outline.now) e.now) }
{
    match eval_tests::test(e, model, state, outline, 32) {
        ConditionValue::Holds(b, _) => if b { 1 } else { 0 },
        ConditionValue::Trouble(_) => 2,
    }
}
