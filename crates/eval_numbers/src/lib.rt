// The evaluators of numbers and conditions, which contain each other: each call has less depth left.

#![tactic(auto)]

ghost use Rattle.std.specs.Prelude.{◌≡◌, ◌≤◌, length, drop};
ghost use Rattle.eval_sets.specs.Runs as runs;
ghost use Rattle.eval_sets.specs.Runs.{environment, run_number, run_condition};
ghost use Rattle.eval_sets.specs.Promise.{NumberPromise};

use eval_sets::answers::{ConditionValue, Told, condition_past, number_past};
use eval_sets::bytes::{after, skip};
use eval_sets::first_bytes::{ConditionForm, NumberForm, condition_form, number_form};
use eval_sets::leaves;
use eval_sets::troubles::Trouble;
use outline::layout::{PREPARED_WORDS, STATE_WORDS};

// Two numbers, one behind the other.
#[cycle(choice_condition_behind_condition_from_connective_number_before_number_behind_number_beyond_number_from_pair)]
fn pair(
    e: &[u8],
    at: usize,
    model: &[u8],
    state: &[u64; STATE_WORDS],
    outline: &[u64; PREPARED_WORDS],
    depth: usize,
) -> Result<Told<(i64, i64)>, Trouble>
    ensures { result ≡ runs.pair_at depth (environment model.now state.now outline.now) (drop at e.now) }
{
    let x = number_from(e, at, model, state, outline, depth)?;
    let y = number_from(e, at + x.used, model, state, outline, depth)?;
    Ok(Told {
        value: (x.value, y.value),
        used: x.used + y.used,
    })
}

// The number behind n bytes, and the part behind it passed over.
#[cycle(choice_condition_behind_condition_from_connective_number_before_number_behind_number_beyond_number_from_pair)]
fn number_before(
    e: &[u8],
    at: usize,
    n: usize,
    model: &[u8],
    state: &[u64; STATE_WORDS],
    outline: &[u64; PREPARED_WORDS],
    depth: usize,
) -> Result<Told<i64>, Trouble>
    requires { n ≤ length (drop at e.now) }
    ensures { result ≡ runs.number_before_at n depth (environment model.now state.now outline.now) (drop at e.now) }
{
    let z = number_from(e, at + n, model, state, outline, depth)?;
    let k = n + z.used;
    let used = k + skip(after(e, at + k));
    Ok(Told {
        value: z.value,
        used,
    })
}

// The number behind n bytes and a part that is passed over.
#[cycle(choice_condition_behind_condition_from_connective_number_before_number_behind_number_beyond_number_from_pair)]
fn number_beyond(
    e: &[u8],
    at: usize,
    n: usize,
    model: &[u8],
    state: &[u64; STATE_WORDS],
    outline: &[u64; PREPARED_WORDS],
    depth: usize,
) -> Result<Told<i64>, Trouble>
    requires { n ≤ length (drop at e.now) }
    ensures { result ≡ runs.number_beyond_at n depth (environment model.now state.now outline.now) (drop at e.now) }
{
    let k = n + skip(after(e, at + n));
    number_past(k, number_from(e, at + k, model, state, outline, depth))
}

// 2B, behind its byte: a condition and two numbers, the first where it holds, else the second.
#[cycle(choice_condition_behind_condition_from_connective_number_before_number_behind_number_beyond_number_from_pair)]
fn choice(
    e: &[u8],
    at: usize,
    model: &[u8],
    state: &[u64; STATE_WORDS],
    outline: &[u64; PREPARED_WORDS],
    depth: usize,
) -> Result<Told<i64>, Trouble>
    ensures { result ≡ runs.choice_at depth (environment model.now state.now outline.now) (drop at e.now) }
{
    match condition_from(e, at, model, state, outline, depth) {
        ConditionValue::Holds(b, n) => {
            if b {
                number_before(e, at, n, model, state, outline, depth)
            } else {
                number_beyond(e, at, n, model, state, outline, depth)
            }
        }
        ConditionValue::Trouble(t) => Err(t),
    }
}

// 58 and 59, behind their byte: a first part with the deciding truth decides, and the second is passed over.
#[cycle(choice_condition_behind_condition_from_connective_number_before_number_behind_number_beyond_number_from_pair)]
fn connective(
    decides: bool,
    e: &[u8],
    at: usize,
    model: &[u8],
    state: &[u64; STATE_WORDS],
    outline: &[u64; PREPARED_WORDS],
    depth: usize,
) -> ConditionValue
    ensures { result ≡ runs.connective_at decides depth (environment model.now state.now outline.now) (drop at e.now) }
{
    match condition_from(e, at, model, state, outline, depth) {
        ConditionValue::Holds(b, n) => {
            if leaves::agree(decides, b) {
                let used = n + skip(after(e, at + n));
                ConditionValue::Holds(b, used)
            } else {
                condition_past(n, condition_from(e, at + n, model, state, outline, depth))
            }
        }
        ConditionValue::Trouble(t) => ConditionValue::Trouble(t),
    }
}

// What stands behind a number's first byte.
#[cycle(choice_condition_behind_condition_from_connective_number_before_number_behind_number_beyond_number_from_pair)]
fn number_behind(
    form: NumberForm,
    e: &[u8],
    at: usize,
    model: &[u8],
    state: &[u64; STATE_WORDS],
    outline: &[u64; PREPARED_WORDS],
    depth: usize,
) -> Result<Told<i64>, Trouble>
    ensures { result ≡ runs.number_at depth (environment model.now state.now outline.now) form (drop at e.now) }
{
    match form {
        NumberForm::Literal => leaves::literal_number(after(e, at)),
        NumberForm::Variable => leaves::number_variable(after(e, at), state),
        NumberForm::Arithmetic(o) => leaves::arithmetic(
            o,
            pair(e, at, model, state, outline, depth),
        ),
        NumberForm::Entry => leaves::entry_number(after(e, at), model, state, outline),
        NumberForm::Size => leaves::size_number(e, at, state, outline, depth),
        NumberForm::Total => leaves::total_number(e, at, model, state, outline, depth),
        NumberForm::Choice => choice(e, at, model, state, outline, depth),
        NumberForm::Other => Err(Trouble::Nothing),
    }
}

// What stands behind a condition's first byte.
#[cycle(choice_condition_behind_condition_from_connective_number_before_number_behind_number_beyond_number_from_pair)]
fn condition_behind(
    form: ConditionForm,
    e: &[u8],
    at: usize,
    model: &[u8],
    state: &[u64; STATE_WORDS],
    outline: &[u64; PREPARED_WORDS],
    depth: usize,
) -> ConditionValue
    ensures { result ≡ runs.condition_at depth (environment model.now state.now outline.now) form (drop at e.now) }
{
    match form {
        ConditionForm::Comparison(r) => leaves::comparison(
            r,
            pair(e, at, model, state, outline, depth),
        ),
        ConditionForm::Same => leaves::same_elements(after(e, at), state),
        ConditionForm::Member => leaves::member_of(e, at, state, outline, depth),
        ConditionForm::Empty => leaves::empty_set(e, at, state, outline, depth),
        ConditionForm::Subset => leaves::subset_of(e, at, state, outline, depth),
        ConditionForm::Negation => leaves::negation(condition_from(
            e, at, model, state, outline, depth,
        )),
        ConditionForm::Connective(b) => connective(b, e, at, model, state, outline, depth),
        ConditionForm::Other => ConditionValue::Trouble(Trouble::Nothing),
    }
}

// The value of the number that begins at a position; the commonest forms first, so that they cost one call.
#[cycle(choice_condition_behind_condition_from_connective_number_before_number_behind_number_beyond_number_from_pair)]
fn number_from(
    e: &[u8],
    at: usize,
    model: &[u8],
    state: &[u64; STATE_WORDS],
    outline: &[u64; PREPARED_WORDS],
    depth: usize,
) -> Result<Told<i64>, Trouble>
    ensures { result ≡ run_number depth (environment model.now state.now outline.now) (drop at e.now) }
{
    if depth == 0 {
        return Err(Trouble::Nothing);
    }
    if e.len() <= at {
        return Err(Trouble::Nothing);
    }
    let b = e[at];
    let next = at + 1;
    if b == 0x21 {
        return number_past(1, leaves::number_variable(after(e, next), state));
    }
    if b == 0x20 {
        return number_past(1, leaves::literal_number(after(e, next)));
    }
    number_past(
        1,
        number_behind(number_form(b), e, next, model, state, outline, depth - 1),
    )
}

// Whether the condition that begins at a position holds; the commonest form first.
#[cycle(choice_condition_behind_condition_from_connective_number_before_number_behind_number_beyond_number_from_pair)]
pub fn condition_from(
    e: &[u8],
    at: usize,
    model: &[u8],
    state: &[u64; STATE_WORDS],
    outline: &[u64; PREPARED_WORDS],
    depth: usize,
) -> ConditionValue
    ensures { result ≡ run_condition depth (environment model.now state.now outline.now) (drop at e.now) }
{
    if depth == 0 {
        return ConditionValue::Trouble(Trouble::Nothing);
    }
    if e.len() <= at {
        return ConditionValue::Trouble(Trouble::Nothing);
    }
    let b = e[at];
    let next = at + 1;
    if b == 0x54 {
        return condition_past(1, leaves::member_of(e, next, state, outline, depth - 1));
    }
    condition_past(
        1,
        condition_behind(condition_form(b), e, next, model, state, outline, depth - 1),
    )
}

// The value of the number at the front.
pub fn number(
    e: &[u8],
    model: &[u8],
    state: &[u64; STATE_WORDS],
    outline: &[u64; PREPARED_WORDS],
    depth: usize,
) -> Result<Told<i64>, Trouble>
    ensures run { result ≡ run_number depth (environment model.now state.now outline.now) e.now }
    ensures promise { NumberPromise depth (environment model.now state.now outline.now) e.now result }
{
    number_from(e, 0, model, state, outline, depth)
}
