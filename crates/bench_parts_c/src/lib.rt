// The functions of crates/bench_parts for C, by the same names and under the same clauses; see host/bench. To C a lent array is a bare pointer,
// a lent slice a pointer and a length.

#![tactic(auto)]

ghost use Rattle.std.specs.Prelude.{length, ◌≡◌};
ghost use Rattle.eval_sets.specs.Runs.{environment, run_number, run_condition};
ghost use Rattle.bench_parts.specs.Timed.{number_code, condition_code, insertions};

use outline::layout::{PREPARED_WORDS, STATE_WORDS};

// The value of the number at the front of e, or the least i64 for trouble.
#[unsafe(no_mangle)]
pub extern "C" fn repgypsum_number_value(
    e: &[u8],
    model: &[u8],
    state: &[u64; STATE_WORDS],
    outline: &[u64; PREPARED_WORDS],
) -> i64
    ensures { result ≡ number_code (run_number 32 (environment model.now state.now outline.now) e.now) }
{
    bench_parts::repgypsum_number_value(e, model, state, outline)
}

// Whether the condition at the front of e holds: 1, 0, or 2 for trouble.
#[unsafe(no_mangle)]
pub extern "C" fn repgypsum_condition_value(
    e: &[u8],
    model: &[u8],
    state: &[u64; STATE_WORDS],
    outline: &[u64; PREPARED_WORDS],
) -> u8
    ensures { result ≡ condition_code (run_condition 32 (environment model.now state.now outline.now) e.now) }
{
    bench_parts::repgypsum_condition_value(e, model, state, outline)
}

// How many children an empty layer of this width keeps of so many: 0 where the model is too long or refused, the width is not from 1 to 4,096 or less
// than LAYER_WORDS × width words are lent.
#[unsafe(no_mangle)]
pub extern "C" fn repgypsum_insertions(
    model: &[u8],
    words: &mut [u64],
    width: u32,
    children: u32,
    seed: u32,
) -> u64
    ensures { result ≡ insertions model.now (length words.old) width children seed }
{
    bench_parts::insertions::repgypsum_insertions(model, words, width, children, seed)
}
