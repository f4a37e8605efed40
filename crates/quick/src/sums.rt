// A table's column summed over a set, in place, sound or silent: a bound's sum by its difference from the last one, any other asked for twice summed once.

ghost use Rattle.std.specs.Prelude.{◌≡◌, true, ◌+◌, ◌<◌};
ghost use Rattle.model.specs.Numbers.{most_objects};
ghost use Rattle.quick.specs.Sums.{VariableTotal, ChangedTotal, TotalForm, summed_set, summed_column, total_in, EndForm, end_in, ClosingForm, closing_in, bound_place, Remembers, Forgotten, Remembering, BoundTold, InnerTold};

use crate::sets::{changed, is_changed, object};
use eval_sets::bytes::after;
use laws::{byte_at, wide};
use outline::layout::{BOUNDS, PREPARED_WORDS, STATE_WORDS, TABLES};
use outline::word_at;
use prepare::tests::stands;
use words::arithmetic::{biased, in_range, signed_word};
use words::literals::integer;
use words::sizes::{MOST_OBJECTS, RANGE_END};
use words::tables::{total, total_from};

// How many bounds there may be, and the words of their last sums: a set, and the sum over it, as a number variable has it.
const MOST_BOUNDS: usize = 8;

// Behind them the last sum of any other total: its key, which is the table's number and 256 times the column's byte, its set and the sum.
const LAST: usize = 16;

pub const SUM_WORDS: usize = 19;

// The word of the number 0.
const ZERO: u64 = 2147483648;

// Remembers of each bound the sum over no members, and such a sum as the last one.
pub fn forget(sums: &mut [u64; SUM_WORDS])
    ensures { Forgotten sums.new }
{
    *sums = [
        0, ZERO, 0, ZERO, 0, ZERO, 0, ZERO, 0, ZERO, 0, ZERO, 0, ZERO, 0, ZERO, 0, 0, ZERO,
    ];
}

// Whether 2A t 41 v 30 j stands at a place.
pub fn is_variable_total(model: &[u8], at: usize) -> bool
    ensures { result ≡ true → VariableTotal model.now at }
{
    stands(model, at, 6) && model[at] == 0x2a && model[at + 2] == 0x41 && model[at + 4] == 0x30
}

// Whether 2A t, a set variable with an element added or taken out, and 30 j stand at a place.
fn is_changed_total(model: &[u8], at: usize) -> bool
    ensures { result ≡ true → ChangedTotal model.now at }
{
    stands(model, at, 9) && model[at] == 0x2a && is_changed(model, at + 2) && model[at + 7] == 0x30
}

// Whether one of these totals stands at a place.
fn is_total(model: &[u8], at: usize) -> bool
    ensures { result ≡ true → TotalForm model.now at }
{
    is_variable_total(model, at) || is_changed_total(model, at)
}

// The set that a total sums over.
#[tactic(auto, unfolding(crate::specs::Sums::summed_set))]
fn summed_set(model: &[u8], at: usize, state: &[u64; STATE_WORDS]) -> u64
    requires { TotalForm model.now at }
    ensures { result ≡ summed_set model.now at state.now }
{
    if model[at + 2] == 0x41 {
        return word_at(state, byte_at(model, at + 3) as usize);
    }
    changed(model, at + 2, state)
}

// The column that a total sums.
#[tactic(auto, unfolding(crate::specs::Sums::summed_column))]
fn summed_column(model: &[u8], at: usize) -> u64
    requires { TotalForm model.now at }
    ensures { (result ≡ summed_column model.now at) × (result < most_objects) }
{
    if model[at + 2] == 0x41 {
        return wide(byte_at(model, at + 5)) % MOST_OBJECTS;
    }
    wide(byte_at(model, at + 8)) % MOST_OBJECTS
}

// The total at a place, summed anew.
fn total_at(
    model: &[u8],
    at: usize,
    outline: &[u64; PREPARED_WORDS],
    state: &[u64; STATE_WORDS],
) -> i64
    requires { TotalForm model.now at }
    ensures { result ≡ total_in model.now at outline.now state.now }
{
    let table = word_at(outline, TABLES + byte_at(model, at + 1) as usize);
    let s = summed_set(model, at, state);
    let j = summed_column(model, at);
    total(model, table, s, j)
}

// The total 2A t 41 v 30 j at a place: the last one where table, column and set are the same, else summed anew and remembered where it is in range.
pub fn last_total(
    model: &[u8],
    at: usize,
    outline: &[u64; PREPARED_WORDS],
    state: &[u64; STATE_WORDS],
    sums: &mut [u64; SUM_WORDS],
) -> i64
    requires { VariableTotal model.now at × Remembers model.now outline.now sums.old }
    ensures { (result ≡ total_in model.now at outline.now state.now) × Remembers model.now outline.now sums.new }
{
    let key = wide(byte_at(model, at + 1)) + 256 * wide(byte_at(model, at + 5));
    let s = word_at(state, byte_at(model, at + 3) as usize);
    if sums[LAST] == key && sums[LAST + 1] == s {
        return signed_word(sums[LAST + 2]);
    }
    let z = total_at(model, at, outline, state);
    if in_range(z) {
        sums[LAST] = key;
        sums[LAST + 1] = s;
        sums[LAST + 2] = biased(z);
    }
    z
}

// Bound k's total, from the last one. It is remembered where it is in range.
fn remembered(
    model: &[u8],
    at: usize,
    outline: &[u64; PREPARED_WORDS],
    state: &[u64; STATE_WORDS],
    sums: &mut [u64; SUM_WORDS],
    k: usize,
) -> i64
    requires { Remembering model.now at outline.now sums.old k }
    ensures { (result ≡ total_in model.now at outline.now state.now) × Remembers model.now outline.now sums.new }
{
    let table = word_at(outline, TABLES + byte_at(model, at + 1) as usize);
    let s = summed_set(model, at, state);
    let j = summed_column(model, at);
    let z = total_from(
        model,
        table,
        sums[2 * k],
        signed_word(sums[2 * k + 1]),
        s,
        j,
    );
    if in_range(z) {
        sums[2 * k] = s;
        sums[2 * k + 1] = biased(z);
    }
    z
}

// Whether 58 55 41 v 53 31 u 30 k stands at a place.
fn is_end(model: &[u8], at: usize) -> bool
    ensures { result ≡ true → EndForm model.now at }
{
    stands(model, at, 9)
        && model[at] == 0x58
        && model[at + 1] == 0x55
        && model[at + 2] == 0x41
        && model[at + 4] == 0x53
        && model[at + 5] == 0x31
        && model[at + 7] == 0x30
}

// Whether the set variable has no member and the element variable is the object.
#[tactic(auto, unfolding(crate::specs::Sums::end_in))]
fn at_end(model: &[u8], at: usize, state: &[u64; STATE_WORDS]) -> bool
    requires { EndForm model.now at }
    ensures { result ≡ end_in model.now at state.now }
{
    word_at(state, byte_at(model, at + 3) as usize) == 0
        && object(0x31, byte_at(model, at + 6), state)
            == object(0x30, byte_at(model, at + 8), state)
}

// Whether 2B, such a condition, 20 with a number and such a total stand at a place.
fn is_closing(model: &[u8], at: usize) -> bool
    ensures { result ≡ true → ClosingForm model.now at }
{
    stands(model, at, 15)
        && model[at] == 0x2b
        && model[at + 10] == 0x20
        && is_end(model, at + 1)
        && is_total(model, at + 15)
}

// The number at the end, bound k's total before it.
fn closing(
    model: &[u8],
    at: usize,
    outline: &[u64; PREPARED_WORDS],
    state: &[u64; STATE_WORDS],
    sums: &mut [u64; SUM_WORDS],
    k: usize,
) -> i64
    requires { ClosingForm model.now at × Remembering model.now (at + 15) outline.now sums.old k }
    ensures { (result ≡ closing_in model.now at outline.now state.now) × Remembers model.now outline.now sums.new }
{
    if at_end(model, at + 1, state) {
        return integer(after(model, at + 11));
    }
    remembered(model, at + 15, outline, state, sums, k)
}

// The value of bound k, where it is such a total or ends with one; a number out of range where this does not tell it.
pub fn bound_sum(
    model: &[u8],
    outline: &[u64; PREPARED_WORDS],
    state: &[u64; STATE_WORDS],
    sums: &mut [u64; SUM_WORDS],
    k: usize,
) -> i64
    requires { Remembers model.now outline.now sums.old }
    ensures { BoundTold model.now (bound_place outline.now k) outline.now state.now result × Remembers model.now outline.now sums.new }
{
    if k < MOST_BOUNDS {
        let at = word_at(outline, BOUNDS + k) as usize;
        if is_total(model, at) {
            return remembered(model, at, outline, state, sums, k);
        }
        if is_closing(model, at) {
            return closing(model, at, outline, state, sums, k);
        }
    }
    RANGE_END
}

// The total inside bound k, fourteen bytes behind a first byte 23, as a quotient rounded up has it; a number out of range where none stands there.
pub fn inner_sum(
    model: &[u8],
    outline: &[u64; PREPARED_WORDS],
    state: &[u64; STATE_WORDS],
    sums: &mut [u64; SUM_WORDS],
    k: usize,
) -> i64
    requires { Remembers model.now outline.now sums.old }
    ensures { InnerTold model.now (bound_place outline.now k) outline.now state.now result × Remembers model.now outline.now sums.new }
{
    if k < MOST_BOUNDS {
        let at = word_at(outline, BOUNDS + k) as usize;
        if stands(model, at, 20) && model[at] == 0x23 && is_variable_total(model, at + 14) {
            return remembered(model, at + 14, outline, state, sums, k);
        }
    }
    RANGE_END
}
