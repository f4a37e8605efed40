// Numbers and conditions whose parts are evaluated, or are no numbers or conditions.

ghost use Rattle.std.specs.Prelude.{◌≡◌, cond, ◌<◌, drop};
ghost use Rattle.std.specs.Int.Signed.{mag, le_z};
ghost use Rattle.model.specs.Numbers.{range_end};
ghost use Rattle.model.specs.Values.{floor_quotient};
ghost use Rattle.model.specs.Values.{◌>>=◌ as ◌and_then◌};
ghost use Rattle.eval_sets.specs.Answers.{number_answer, number_of_two, condition_of_two, negated};
ghost use Rattle.eval_sets.specs.Bounds.{PairInRange};
ghost use Rattle.eval_sets.specs.Runs as runs;
ghost use Rattle.eval_sets.specs.Runs.{fits};

use crate::answers::{ConditionValue, Told};
use crate::bytes::{after, name};
use crate::first_bytes::{Operation, Relation};
use crate::sets::{element, set_near, set_then_element, two_elements, two_sets};
use crate::troubles::Trouble;
use outline::layout::{PREPARED_WORDS, STATE_WORDS, TABLES};
use outline::word_at;
use words::arithmetic::{difference, floor_quotient, in_range, product, signed_word, sum};
use words::literals::integer;

// A number in range; another is out of range.
fn ranged(z: i64, used: usize) -> Result<Told<i64>, Trouble>
    ensures { result ≡ number_answer (fits z) used }
{
    if in_range(z) {
        return Ok(Told { value: z, used });
    }
    Err(Trouble::OutOfRange)
}

// 20, behind its byte: an i32.
pub fn literal_number(e: &[u8]) -> Result<Told<i64>, Trouble>
    ensures { result ≡ runs.literal_number e.now }
{
    if e.len() < 4 {
        return Err(Trouble::Nothing);
    }
    ranged(integer(e), 4)
}

// 21, behind its byte: a number variable.
pub fn number_variable(e: &[u8], state: &[u64; STATE_WORDS]) -> Result<Told<i64>, Trouble>
    ensures { result ≡ runs.number_variable_at state.now e.now }
{
    if e.len() == 0 {
        return Err(Trouble::Nothing);
    }
    ranged(signed_word(word_at(state, name(e))), 1)
}

fn lesser(a: i64, b: i64) -> i64
    ensures { result ≡ cond (le_z a b) a b }
{
    if a <= b {
        return a;
    }
    b
}

fn greater(a: i64, b: i64) -> i64
    ensures { result ≡ cond (le_z a b) b a }
{
    if a <= b {
        return b;
    }
    a
}

// The quotient rounded down; a divisor of zero comes before a value out of range.
fn quotient(a: i64, b: i64, used: usize) -> Result<Told<i64>, Trouble>
    requires { (mag a < range_end) × (mag b < range_end) }
    ensures { result ≡ number_answer (floor_quotient a b and_then fits) used }
{
    if b == 0 {
        return Err(Trouble::DivisorZero);
    }
    ranged(floor_quotient(a, b), used)
}

// 22 to 27, of two values in range.
fn operation(o: Operation, a: i64, b: i64, used: usize) -> Result<Told<i64>, Trouble>
    requires { (mag a < range_end) × (mag b < range_end) }
    ensures { result ≡ number_answer (runs.arithmetic o a b) used }
{
    match o {
        Operation::Sum => ranged(sum(a, b), used),
        Operation::Difference => ranged(difference(a, b), used),
        Operation::Product => ranged(product(a, b), used),
        Operation::Quotient => quotient(a, b, used),
        Operation::Lesser => ranged(lesser(a, b), used),
        Operation::Greater => ranged(greater(a, b), used),
    }
}

// 22 to 27, by the answer of the two numbers.
pub fn arithmetic(o: Operation, p: Result<Told<(i64, i64)>, Trouble>) -> Result<Told<i64>, Trouble>
    requires { PairInRange p }
    ensures { result ≡ number_of_two (runs.arithmetic o) p }
{
    let p = p?;
    operation(o, p.value.0, p.value.1, p.used)
}

// The word of table t.
fn table_in(outline: &[u64; PREPARED_WORDS], t: usize) -> u64
    requires { t < 256 }
    ensures { result ≡ runs.table_in outline.now t }
{
    word_at(outline, TABLES + t)
}

// 28, behind its byte: an entry of a table.
pub fn entry_number(
    e: &[u8],
    model: &[u8],
    state: &[u64; STATE_WORDS],
    outline: &[u64; PREPARED_WORDS],
) -> Result<Told<i64>, Trouble>
    ensures { result ≡ runs.entry_number model.now state.now outline.now e.now }
{
    if e.len() == 0 {
        return Err(Trouble::Nothing);
    }
    let table = table_in(outline, name(e));
    let x = two_elements(after(e, 1), state);
    ranged(
        words::tables::entry(model, table, x.first, x.second),
        1 + x.used,
    )
}

// 29, behind its byte: how many members a set has.
pub fn size_number(
    e: &[u8],
    at: usize,
    state: &[u64; STATE_WORDS],
    outline: &[u64; PREPARED_WORDS],
    depth: usize,
) -> Result<Told<i64>, Trouble>
    ensures { result ≡ runs.size_number (runs.run_set depth state.now outline.now (drop at e.now)) }
{
    let x = set_near(e, at, state, outline, depth);
    ranged(words::sets::count(x.members) as i64, x.used)
}

// 2A, behind its byte: the sum of the entries at the members' rows; only the total has to be in range.
pub fn total_number(
    e: &[u8],
    at: usize,
    model: &[u8],
    state: &[u64; STATE_WORDS],
    outline: &[u64; PREPARED_WORDS],
    depth: usize,
) -> Result<Told<i64>, Trouble>
    ensures { result ≡ runs.total_at depth (runs.environment model.now state.now outline.now) (drop at e.now) }
{
    if e.len() <= at {
        return Err(Trouble::Nothing);
    }
    let table = table_in(outline, name(after(e, at)));
    let x = set_then_element(e, at + 1, state, outline, depth);
    ranged(
        words::tables::total(model, table, x.first, x.second),
        1 + x.used,
    )
}

// 50 to 52, of two values.
fn relation(r: Relation, a: i64, b: i64) -> bool
    ensures { result ≡ runs.compared r a b }
{
    match r {
        Relation::Equal => {
            if a <= b {
                return b <= a;
            }
            false
        }
        Relation::Less => a < b,
        Relation::AtMost => a <= b,
    }
}

// 50 to 52, by the answer of the two numbers.
pub fn comparison(r: Relation, p: Result<Told<(i64, i64)>, Trouble>) -> ConditionValue
    ensures { result ≡ condition_of_two (runs.compared r) p }
{
    match p {
        Ok(p) => ConditionValue::Holds(relation(r, p.value.0, p.value.1), p.used),
        Err(t) => ConditionValue::Trouble(t),
    }
}

// 53, behind its byte: two elements are equal.
pub fn same_elements(e: &[u8], state: &[u64; STATE_WORDS]) -> ConditionValue
    ensures { result ≡ runs.same_elements (runs.two_elements state.now e.now) }
{
    let x = two_elements(e, state);
    ConditionValue::Holds(x.first == x.second, x.used)
}

// 54, behind its byte: an element is in a set.
pub fn member_of(
    e: &[u8],
    at: usize,
    state: &[u64; STATE_WORDS],
    outline: &[u64; PREPARED_WORDS],
    depth: usize,
) -> ConditionValue
    ensures { result ≡ runs.member_of (runs.element_then_set_at depth state.now outline.now (drop at e.now)) }
{
    let x = element(after(e, at), state);
    let y = set_near(e, at + x.used, state, outline, depth);
    ConditionValue::Holds(words::sets::is_member(x.object, y.members), x.used + y.used)
}

// 55, behind its byte: a set is empty.
pub fn empty_set(
    e: &[u8],
    at: usize,
    state: &[u64; STATE_WORDS],
    outline: &[u64; PREPARED_WORDS],
    depth: usize,
) -> ConditionValue
    ensures { result ≡ runs.empty_set (runs.run_set depth state.now outline.now (drop at e.now)) }
{
    let x = set_near(e, at, state, outline, depth);
    ConditionValue::Holds(x.members == 0, x.used)
}

// 56, behind its byte: every member of a set is in another.
pub fn subset_of(
    e: &[u8],
    at: usize,
    state: &[u64; STATE_WORDS],
    outline: &[u64; PREPARED_WORDS],
    depth: usize,
) -> ConditionValue
    ensures { result ≡ runs.subset_of (runs.two_sets_at depth state.now outline.now (drop at e.now)) }
{
    let x = two_sets(e, at, state, outline, depth);
    ConditionValue::Holds(words::sets::is_subset(x.first, x.second), x.used)
}

// 57: the other truth.
pub fn negation(v: ConditionValue) -> ConditionValue
    ensures { result ≡ negated v }
{
    match v {
        ConditionValue::Holds(b, used) => ConditionValue::Holds(!b, used),
        ConditionValue::Trouble(t) => ConditionValue::Trouble(t),
    }
}

// Whether two truths are the same.
pub fn agree(a: bool, b: bool) -> bool
    ensures { result ≡ runs.agree a b }
{
    if a {
        return b;
    }
    !b
}
