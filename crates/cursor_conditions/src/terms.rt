// Literals and choices between two literals, joined by 22; the size of a set.

ghost use Rattle.std.specs.Prelude.{◌≡◌, ◌<◌, pos, nat_abs};
ghost use Rattle.std.specs.Int.Signed.{mag};
ghost use Rattle.model.specs.Numbers.{range_end};
ghost use Rattle.cursor.specs.Places.{Stands, Begins};
ghost use Rattle.cursor.specs.Told.{NumberTold, ChosenTold};
ghost use Rattle.cursor.specs.Codes.{begins_joined};

use crate::conditions::{member_and_common, scaled_comparison, whole};
use cursor::numbers::{literal, operation, simple, two_entries};
use cursor::places::{behind, first_byte, stands};
use cursor::sets::set;
use outline::layout::{PREPARED_WORDS, STATE_WORDS};
use words::literals::integer;
use words::sets::count;

// 29 and a set at the cursor.
fn size(
    m: &&[u8],
    at: &mut usize,
    outline: &[u64; PREPARED_WORDS],
    state: &[u64; STATE_WORDS],
) -> Option<i64>
    requires { Begins m.now.now at.old 0x29 }
    ensures { NumberTold m.now.now outline.now state.now at.old result at.new }
{
    let p = *at;
    *at = p + 1;
    let s = set(m, at, outline, state);
    if *at == p + 1 {
        return None;
    }
    Some(count(s) as i64)
}

// The first of two literals at the cursor where c holds, else the second.
fn literal_by(
    c: bool,
    m: &&[u8],
    at: &mut usize,
    outline: &[u64; PREPARED_WORDS],
    state: &[u64; STATE_WORDS],
) -> Option<i64>
    ensures { ChosenTold m.now.now outline.now state.now at.old c result at.new }
{
    let p = *at;
    let e = *m;
    if stands(e, p, 10) && e[p] == 0x20 && e[p + 5] == 0x20 {
        *at = p + 10;
        if c {
            return Some(integer(&e[p + 1..]));
        }
        return Some(integer(&e[p + 6..]));
    }
    None
}

// 2B, a condition and two literals at the cursor.
pub fn choice(
    m: &&[u8],
    at: &mut usize,
    outline: &[u64; PREPARED_WORDS],
    state: &[u64; STATE_WORDS],
) -> Option<i64>
    requires { Begins m.now.now at.old 0x2b }
    ensures { NumberTold m.now.now outline.now state.now at.old result at.new }
{
    *at += 1;
    let c = whole(m, at, outline, state)?;
    literal_by(c, m, at, outline, state)
}

// The same by a member of one set and members in common with another.
fn common_choice(
    m: &&[u8],
    at: &mut usize,
    outline: &[u64; PREPARED_WORDS],
    state: &[u64; STATE_WORDS],
) -> Option<i64>
    requires { Begins m.now.now at.old 0x2b }
    ensures { NumberTold m.now.now outline.now state.now at.old result at.new }
{
    *at += 1;
    let c = member_and_common(m, at, outline, state)?;
    literal_by(c, m, at, outline, state)
}

// The same by a comparison with a scaled number variable.
pub fn scaled_choice(
    m: &&[u8],
    at: &mut usize,
    outline: &[u64; PREPARED_WORDS],
    state: &[u64; STATE_WORDS],
) -> Option<i64>
    requires { Begins m.now.now at.old 0x2b }
    ensures { NumberTold m.now.now outline.now state.now at.old result at.new }
{
    *at += 1;
    let c = scaled_comparison(m, at, outline, state)?;
    literal_by(c, m, at, outline, state)
}

// A literal, or a choice between two.
fn term(
    m: &&[u8],
    at: &mut usize,
    outline: &[u64; PREPARED_WORDS],
    state: &[u64; STATE_WORDS],
) -> Option<i64>
    ensures { NumberTold m.now.now outline.now state.now at.old result at.new }
{
    if first_byte(*m, *at) == 0x2b {
        let mut end = *at;
        if let Some(z) = common_choice(m, &mut end, outline, state) {
            *at = end;
            return Some(z);
        }
        return choice(m, at, outline, state);
    }
    literal(m, at, outline, state)
}

fn magnitude(z: i64) -> i64
    requires { mag z < range_end }
    ensures { result ≡ pos (nat_abs z) }
{
    if z < 0 { 0 - z } else { z }
}

// Terms joined by 22. No sum of some of them leaves the range where all magnitudes together do not.
fn terms(
    m: &&[u8],
    at: &mut usize,
    outline: &[u64; PREPARED_WORDS],
    state: &[u64; STATE_WORDS],
) -> Option<i64>
    ensures { NumberTold m.now.now outline.now state.now at.old result at.new }
{
    let mut due: usize = 1;
    let mut z: i64 = 0;
    let mut most: i64 = 0;
    while due != 0 {
        if first_byte(*m, *at) == 0x22 {
            *at += 1;
            due += 1;
        } else {
            let x = term(m, at, outline, state)?;
            z += x;
            most += magnitude(x);
            if 2147483648 <= most {
                return None;
            }
            due -= 1;
        }
    }
    Some(z)
}

// Whether one of two bytes begins a sum or a choice.
#[tactic(auto, unfolding(cursor::specs::Codes::begins_joined))]
fn joins(a: u8, b: u8) -> bool
    ensures { result ≡ begins_joined a b }
{
    a == 0x2b || a == 0x22 || b == 0x2b || b == 0x22
}

// 22 and a table's entry first at the cursor: another entry behind it, else a simple number.
fn entry_first(
    m: &&[u8],
    at: &mut usize,
    outline: &[u64; PREPARED_WORDS],
    state: &[u64; STATE_WORDS],
) -> Option<i64>
    requires { Begins m.now.now at.old 0x22 }
    ensures { NumberTold m.now.now outline.now state.now at.old result at.new }
{
    let mut end = *at;
    if let Some(z) = two_entries(m, &mut end, outline, state) {
        *at = end;
        return Some(z);
    }
    simple(m, at, outline, state)
}

// 22 and terms at the cursor, or 22 and a table's entry first. Nothing is tried where the first part is no sum, no choice and no entry, nor what stands
// behind a literal in its place.
fn sum_of_terms(
    m: &&[u8],
    at: &mut usize,
    outline: &[u64; PREPARED_WORDS],
    state: &[u64; STATE_WORDS],
) -> Option<i64>
    ensures { NumberTold m.now.now outline.now state.now at.old result at.new }
{
    let e = *m;
    let p = *at;
    if stands(e, p, 7) {
        if joins(e[p + 1], e[p + 6]) {
            return terms(m, at, outline, state);
        }
        if e[p + 1] == 0x28 {
            if e[p] == 0x22 {
                return entry_first(m, at, outline, state);
            }
            return simple(m, at, outline, state);
        }
    }
    None
}

// 24, a literal and terms at the cursor.
fn weighed(
    m: &&[u8],
    at: &mut usize,
    outline: &[u64; PREPARED_WORDS],
    state: &[u64; STATE_WORDS],
) -> Option<i64>
    requires { Begins m.now.now at.old 0x24 }
    ensures { NumberTold m.now.now outline.now state.now at.old result at.new }
{
    let p = *at;
    let e = *m;
    if stands(e, p, 7) && e[p + 6] == 0x22 {
        *at = p + 1;
        let x = literal(m, at, outline, state)?;
        let y = terms(m, at, outline, state)?;
        return operation(0x24, x, y);
    }
    None
}

// The first of two simple numbers at the cursor where c holds, else the second.
fn simple_by(
    c: bool,
    m: &&[u8],
    at: &mut usize,
    outline: &[u64; PREPARED_WORDS],
    state: &[u64; STATE_WORDS],
) -> Option<i64>
    requires { Stands m.now.now at.old 0 }
    ensures { ChosenTold m.now.now outline.now state.now at.old c result at.new }
{
    let p = *at;
    let x = simple(m, at, outline, state)?;
    let q = *at;
    if behind(*m, p, 1) == q {
        let y = simple(m, at, outline, state)?;
        if behind(*m, q, 1) == *at {
            return Some(if c { x } else { y });
        }
    }
    None
}

// 2B, a condition and two simple numbers at the cursor.
fn simple_choice(
    m: &&[u8],
    at: &mut usize,
    outline: &[u64; PREPARED_WORDS],
    state: &[u64; STATE_WORDS],
) -> Option<i64>
    requires { Begins m.now.now at.old 0x2b }
    ensures { NumberTold m.now.now outline.now state.now at.old result at.new }
{
    *at += 1;
    let c = whole(m, at, outline, state)?;
    simple_by(c, m, at, outline, state)
}

// 2B at the cursor: of two literals, else of two simple numbers.
fn any_choice(
    m: &&[u8],
    at: &mut usize,
    outline: &[u64; PREPARED_WORDS],
    state: &[u64; STATE_WORDS],
) -> Option<i64>
    requires { Begins m.now.now at.old 0x2b }
    ensures { NumberTold m.now.now outline.now state.now at.old result at.new }
{
    let mut end = *at;
    if let Some(z) = choice(m, &mut end, outline, state) {
        *at = end;
        return Some(z);
    }
    let mut far = *at;
    let z = simple_choice(m, &mut far, outline, state);
    *at = far;
    z
}

// A number of one of these forms at the cursor.
pub fn number(
    m: &&[u8],
    at: &mut usize,
    outline: &[u64; PREPARED_WORDS],
    state: &[u64; STATE_WORDS],
) -> Option<i64>
    ensures { NumberTold m.now.now outline.now state.now at.old result at.new }
{
    let b = first_byte(*m, *at);
    if b == 0x22 {
        return sum_of_terms(m, at, outline, state);
    }
    if b == 0x2b {
        return any_choice(m, at, outline, state);
    }
    if b == 0x24 {
        return weighed(m, at, outline, state);
    }
    if b == 0x29 {
        return size(m, at, outline, state);
    }
    None
}
