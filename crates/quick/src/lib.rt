// Conditions decided in place, without a call of the evaluators, sound or silent; elements put into sets, entries of tables and
// bounds that sum them likewise.

#![tactic(auto)]

ghost use Rattle.std.specs.Prelude.{◌≡◌, true, ◌+◌, ◌≤◌, length};
ghost use Rattle.quick.specs.Quick.{QuickSays, SumForm, SumIs, decided as decided_by};

use eval_sets::bytes::after;
use laws::{byte_at, wide};
use outline::layout::{PREPARED_WORDS, STATE_WORDS, TABLES};
use outline::word_at;
use prepare::tests::stands;
use words::arithmetic::{in_range, signed_word, sum};
use words::literals::integer;
use words::sizes::MOST_OBJECTS;
use words::tables::entry;

pub mod entries;
pub mod sets;
pub mod sums;

// Whether 52 22 21 v 28 t 31 u 30 k 20 and a number stand at a place.
fn is_sum(model: &[u8], at: usize) -> bool
    ensures { result ≡ true → SumForm model.now at }
{
    stands(model, at, 15)
        && model[at] == 0x52
        && model[at + 1] == 0x22
        && model[at + 2] == 0x21
        && model[at + 4] == 0x28
        && model[at + 6] == 0x31
        && model[at + 8] == 0x30
        && model[at + 10] == 0x20
}

// The number variable and the table's entry together.
fn summed(
    model: &[u8],
    at: usize,
    outline: &[u64; PREPARED_WORDS],
    state: &[u64; STATE_WORDS],
) -> i64
    requires { at + 15 ≤ length model.now }
    ensures { SumIs model.now at outline.now state.now result }
{
    let a = signed_word(word_at(state, byte_at(model, at + 3) as usize));
    let table = word_at(outline, TABLES + byte_at(model, at + 5) as usize);
    let row = word_at(state, byte_at(model, at + 7) as usize) % MOST_OBJECTS;
    let column = wide(byte_at(model, at + 9)) % MOST_OBJECTS;
    let b = entry(model, table, row, column);
    sum(a, b)
}

// Whether z is at most c, where z is in range.
#[tactic(auto, unfolding(crate::specs::Quick::decided))]
fn decided(z: i64, c: i64) -> Option<bool>
    ensures { result ≡ decided_by z c }
{
    if in_range(z) { Some(z <= c) } else { None }
}

// Whether the condition at a place holds, where this decides it.
pub fn condition(
    model: &[u8],
    at: usize,
    outline: &[u64; PREPARED_WORDS],
    state: &[u64; STATE_WORDS],
) -> Option<bool>
    ensures { QuickSays model.now at outline.now state.now result }
{
    if is_sum(model, at) {
        let z = summed(model, at, outline, state);
        let c = integer(after(model, at + 11));
        return decided(z, c);
    }
    None
}
