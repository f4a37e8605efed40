// The evaluators of elements and sets, which meet no trouble.

ghost use Rattle.std.specs.Prelude.{◌≡◌, ◌+◌, ◌<◌, ◌^◌, drop};
ghost use Rattle.model.specs.Numbers.{most_objects};
ghost use Rattle.eval_sets.specs.Answers.{past_set, absent_set};
ghost use Rattle.eval_sets.specs.Runs as runs;
ghost use Rattle.eval_sets.specs.Promise.{ElementPromise, SetPromise};

use crate::answers::{ElementValue, Parts, SetValue};
use crate::bytes::{after, name};
use crate::first_bytes::{Change, Combination, SetForm, set_form};
use laws::wide;
use outline::layout::{KINDS, PREPARED_WORDS, STATE_WORDS};
use outline::word_at;
use words::literals::long;
use words::sets::{difference, full, intersection, single, union};
use words::sizes::MOST_OBJECTS;

// The object of the element at the front.
pub fn element(e: &[u8], state: &[u64; STATE_WORDS]) -> ElementValue
    ensures run { result ≡ runs.run_element state.now e.now }
    ensures promise { ElementPromise state.now e.now result }
{
    if e.len() < 2 {
        return ElementValue { object: 0, used: 0 };
    }
    let k = e[1] as usize;
    match e[0] {
        0x30 => ElementValue {
            object: (k as u64) % MOST_OBJECTS,
            used: 2,
        },
        0x31 => ElementValue {
            object: word_at(state, k) % MOST_OBJECTS,
            used: 2,
        },
        _ => ElementValue { object: 0, used: 0 },
    }
}

// Two elements, one behind the other.
pub fn two_elements(e: &[u8], state: &[u64; STATE_WORDS]) -> Parts
    ensures { result ≡ runs.two_elements state.now e.now }
{
    let x = element(e, state);
    let y = element(after(e, x.used), state);
    Parts {
        first: x.object,
        second: y.object,
        objects: 0,
        used: x.used + y.used,
    }
}

fn no_set() -> SetValue
    ensures { result ≡ absent_set }
{
    SetValue {
        members: 0,
        objects: 0,
        used: 0,
    }
}

// u8 object count, u64 members.
fn literal_set(e: &[u8]) -> SetValue
    ensures { result ≡ runs.literal_set e.now }
{
    if e.len() < 9 {
        return no_set();
    }
    SetValue {
        members: long(&e[1..]),
        objects: wide(e[0]),
        used: 9,
    }
}

// The objects of the set variable v, by its kind word.
fn objects_in(outline: &[u64; PREPARED_WORDS], v: usize) -> u64
    requires { v < 256 }
    ensures { result ≡ runs.objects_in outline.now v }
{
    let kind = word_at(outline, KINDS + v);
    if kind < MOST_OBJECTS {
        return 0;
    }
    kind - MOST_OBJECTS
}

// A set variable: its word, and its objects.
fn set_variable(e: &[u8], state: &[u64; STATE_WORDS], outline: &[u64; PREPARED_WORDS]) -> SetValue
    ensures { result ≡ runs.set_variable_at state.now outline.now e.now }
{
    if e.len() == 0 {
        return no_set();
    }
    let v = name(e);
    SetValue {
        members: word_at(state, v),
        objects: objects_in(outline, v),
        used: 1,
    }
}

// 42 and 43: an element, then a set.
fn changed(h: Change, p: Parts) -> SetValue
    requires { p.first < most_objects }
    ensures { result ≡ runs.changed h p }
{
    match h {
        Change::Add => SetValue {
            members: union(single(p.first), p.second),
            objects: p.objects,
            used: p.used,
        },
        Change::Remove => SetValue {
            members: difference(p.second, single(p.first)),
            objects: p.objects,
            used: p.used,
        },
    }
}

// 44 to 46: two sets.
fn combined(c: Combination, p: Parts) -> SetValue
    ensures { result ≡ runs.combined c p }
{
    match c {
        Combination::Union => SetValue {
            members: union(p.first, p.second),
            objects: p.objects,
            used: p.used,
        },
        Combination::Intersection => SetValue {
            members: intersection(p.first, p.second),
            objects: p.objects,
            used: p.used,
        },
        Combination::Difference => SetValue {
            members: difference(p.first, p.second),
            objects: p.objects,
            used: p.used,
        },
    }
}

// 47: a set's complement.
fn complemented(v: SetValue) -> SetValue
    ensures { result ≡ runs.complemented v }
{
    SetValue {
        members: difference(full(v.objects), v.members),
        objects: v.objects,
        used: v.used,
    }
}

// One byte more.
fn set_past(v: SetValue) -> SetValue
    requires { 1 + v.used < 2 ^ 64 }
    ensures { result ≡ past_set 1 v }
{
    SetValue {
        members: v.members,
        objects: v.objects,
        used: 1 + v.used,
    }
}

// An element and a set behind it.
#[cycle(element_then_set_set_behind_set_from_two_sets)]
fn element_then_set(
    e: &[u8],
    at: usize,
    state: &[u64; STATE_WORDS],
    outline: &[u64; PREPARED_WORDS],
    depth: usize,
) -> Parts
    ensures { result ≡ runs.element_then_set_at depth state.now outline.now (drop at e.now) }
{
    let x = element(after(e, at), state);
    let y = set_from(e, at + x.used, state, outline, depth);
    Parts {
        first: x.object,
        second: y.members,
        objects: y.objects,
        used: x.used + y.used,
    }
}

// Two sets, one behind the other.
#[cycle(element_then_set_set_behind_set_from_two_sets)]
pub fn two_sets(
    e: &[u8],
    at: usize,
    state: &[u64; STATE_WORDS],
    outline: &[u64; PREPARED_WORDS],
    depth: usize,
) -> Parts
    ensures { result ≡ runs.two_sets_at depth state.now outline.now (drop at e.now) }
{
    let x = set_from(e, at, state, outline, depth);
    let y = set_from(e, at + x.used, state, outline, depth);
    Parts {
        first: x.members,
        second: y.members,
        objects: x.objects,
        used: x.used + y.used,
    }
}

// What stands behind a set's first byte.
#[cycle(element_then_set_set_behind_set_from_two_sets)]
fn set_behind(
    form: SetForm,
    e: &[u8],
    at: usize,
    state: &[u64; STATE_WORDS],
    outline: &[u64; PREPARED_WORDS],
    depth: usize,
) -> SetValue
    ensures { result ≡ runs.set_at depth state.now outline.now form (drop at e.now) }
{
    match form {
        SetForm::Literal => literal_set(after(e, at)),
        SetForm::Variable => set_variable(after(e, at), state, outline),
        SetForm::Changed(h) => changed(h, element_then_set(e, at, state, outline, depth)),
        SetForm::Combined(c) => combined(c, two_sets(e, at, state, outline, depth)),
        SetForm::Complement => complemented(set_from(e, at, state, outline, depth)),
        SetForm::Other => no_set(),
    }
}

// The members of the set that begins at a position.
#[cycle(element_then_set_set_behind_set_from_two_sets)]
pub fn set_from(
    e: &[u8],
    at: usize,
    state: &[u64; STATE_WORDS],
    outline: &[u64; PREPARED_WORDS],
    depth: usize,
) -> SetValue
    ensures { result ≡ runs.run_set depth state.now outline.now (drop at e.now) }
{
    if depth == 0 {
        return no_set();
    }
    if e.len() <= at {
        return no_set();
    }
    set_past(set_behind(set_form(e[at]), e, at + 1, state, outline, depth - 1))
}

// The same; a variable is read at once, without a call.
pub fn set_near(
    e: &[u8],
    at: usize,
    state: &[u64; STATE_WORDS],
    outline: &[u64; PREPARED_WORDS],
    depth: usize,
) -> SetValue
    ensures { result ≡ runs.run_set depth state.now outline.now (drop at e.now) }
{
    if depth == 0 {
        return no_set();
    }
    if e.len() <= at {
        return no_set();
    }
    if e[at] == 0x41 {
        return set_past(set_variable(after(e, at + 1), state, outline));
    }
    set_from(e, at, state, outline, depth)
}

// The members of the set at the front.
pub fn set(
    e: &[u8],
    state: &[u64; STATE_WORDS],
    outline: &[u64; PREPARED_WORDS],
    depth: usize,
) -> SetValue
    ensures run { result ≡ runs.run_set depth state.now outline.now e.now }
    ensures promise { SetPromise depth state.now outline.now e.now result }
{
    set_from(e, 0, state, outline, depth)
}

// A set and an element behind it.
pub fn set_then_element(
    e: &[u8],
    at: usize,
    state: &[u64; STATE_WORDS],
    outline: &[u64; PREPARED_WORDS],
    depth: usize,
) -> Parts
    ensures { result ≡ runs.set_then_element_at depth state.now outline.now (drop at e.now) }
{
    let x = set_from(e, at, state, outline, depth);
    let y = element(after(e, at + x.used), state);
    Parts {
        first: x.members,
        second: y.object,
        objects: x.objects,
        used: x.used + y.used,
    }
}
