// Numbers without numbers inside, and 22 to 27 of two such.

ghost use Rattle.std.specs.Prelude.{◌≡◌, true, ◌+◌, ◌<◌, get_or};
ghost use Rattle.std.specs.Int.Signed.{mag};
ghost use Rattle.model.specs.Numbers.{range_end};
ghost use Rattle.cursor.specs.Places.{Stands, Begins};
ghost use Rattle.cursor.specs.Told.{NumberTo, NumberTold};
ghost use Rattle.cursor.specs.Codes.{ranged, OperationTold, QuotientTold, is_operation};

use crate::places::{first_byte, stands};
use outline::layout::{PREPARED_WORDS, STATE_WORDS, TABLES};
use outline::word_at;
use quick::entries::{entry_at, is_entry};
use quick::sets::{begins_element, object};
use words::arithmetic::{difference, floor_quotient, in_range, product, signed_word, sum};
use words::literals::integer;
use words::tables::entry;

// A number in range, or nothing.
#[tactic(auto, unfolding(crate::specs::Codes::ranged))]
pub fn ranged(z: i64) -> Option<i64>
    ensures { result ≡ ranged z }
{
    if in_range(z) { Some(z) } else { None }
}

// 25 of two numbers in range.
pub fn quotient(x: i64, y: i64) -> Option<i64>
    requires { (mag x < range_end) × (mag y < range_end) }
    ensures { QuotientTold x y result }
{
    if y == 0 {
        return None;
    }
    ranged(floor_quotient(x, y))
}

// 22 to 27 of two numbers in range.
pub fn operation(b: u8, x: i64, y: i64) -> Option<i64>
    requires { (mag x < range_end) × (mag y < range_end) }
    ensures { OperationTold b x y result }
{
    match b {
        0x22 => ranged(sum(x, y)),
        0x23 => ranged(difference(x, y)),
        0x24 => ranged(product(x, y)),
        0x25 => quotient(x, y),
        0x26 => Some(if x <= y { x } else { y }),
        _ => Some(if x <= y { y } else { x }),
    }
}

// Whether this byte is one of 22 to 27.
#[tactic(auto, unfolding(crate::specs::Codes::is_operation))]
pub fn is_operation(b: u8) -> bool
    ensures { result ≡ is_operation b }
{
    0x22 <= b && b < 0x28
}

// 28, a table and two elements at the cursor.
pub fn entry_on(
    m: &&[u8],
    at: &mut usize,
    outline: &[u64; PREPARED_WORDS],
    state: &[u64; STATE_WORDS],
) -> Option<i64>
    requires { Begins m.now.now at.old 0x28 }
    ensures { NumberTold m.now.now outline.now state.now at.old result at.new }
{
    let p = *at;
    let e = *m;
    if stands(e, p, 6) && begins_element(e[p + 2]) && begins_element(e[p + 4]) {
        *at = p + 6;
        let table = word_at(outline, TABLES + e[p + 1] as usize);
        let row = object(e[p + 2], e[p + 3], state);
        let column = object(e[p + 4], e[p + 5], state);
        return Some(entry(e, table, row, column));
    }
    None
}

// A literal, a variable or a table's entry at the cursor.
pub fn leaf(
    m: &&[u8],
    at: &mut usize,
    outline: &[u64; PREPARED_WORDS],
    state: &[u64; STATE_WORDS],
) -> Option<i64>
    ensures { NumberTold m.now.now outline.now state.now at.old result at.new }
{
    let p = *at;
    let e = *m;
    if stands(e, p, 2) {
        if e[p] == 0x21 {
            *at = p + 2;
            return Some(signed_word(word_at(state, e[p + 1] as usize)));
        }
        if e[p] == 0x28 {
            return entry_on(m, at, outline, state);
        }
    }
    literal(m, at, outline, state)
}

// 20 and a number at the cursor.
pub fn literal(
    m: &&[u8],
    at: &mut usize,
    outline: &[u64; PREPARED_WORDS],
    state: &[u64; STATE_WORDS],
) -> Option<i64>
    ensures { NumberTold m.now.now outline.now state.now at.old result at.new }
{
    let p = *at;
    let e = *m;
    if stands(e, p, 5) && e[p] == 0x20 {
        *at = p + 5;
        return Some(integer(&e[p + 1..]));
    }
    None
}

// The number variable at a place: 21 v.
pub fn variable_at(
    m: &&[u8],
    p: usize,
    outline: &[u64; PREPARED_WORDS],
    state: &[u64; STATE_WORDS],
) -> i64
    requires { Stands m.now.now p 2 × (get_or m.now.now p 0 ≡ 0x21) }
    ensures { NumberTo m.now.now outline.now state.now p result (p + 2) }
{
    let e = *m;
    signed_word(word_at(state, e[p + 1] as usize))
}

// The literal at a place: 20 and a number.
pub fn literal_at(
    m: &&[u8],
    p: usize,
    outline: &[u64; PREPARED_WORDS],
    state: &[u64; STATE_WORDS],
) -> i64
    requires { Stands m.now.now p 5 × (get_or m.now.now p 0 ≡ 0x20) }
    ensures { NumberTo m.now.now outline.now state.now p result (p + 5) }
{
    let e = *m;
    integer(&e[p + 1..])
}

// A number variable with a literal added or taken off, 22 or 23 21 v 20 and a number, at the cursor.
pub fn shifted(
    m: &&[u8],
    at: &mut usize,
    outline: &[u64; PREPARED_WORDS],
    state: &[u64; STATE_WORDS],
) -> Option<i64>
    ensures { NumberTold m.now.now outline.now state.now at.old result at.new }
{
    let p = *at;
    let e = *m;
    if stands(e, p, 8) && e[p + 3] == 0x20 && e[p + 1] == 0x21 {
        let x = variable_at(m, p + 1, outline, state);
        let y = literal_at(m, p + 3, outline, state);
        *at = p + 8;
        if e[p] == 0x22 {
            return ranged(sum(x, y));
        }
        if e[p] == 0x23 {
            return ranged(difference(x, y));
        }
    }
    None
}

// A number variable and a table's entry added, 22 21 v 28 t and two elements, at the cursor.
pub fn plus_entry(
    m: &&[u8],
    at: &mut usize,
    outline: &[u64; PREPARED_WORDS],
    state: &[u64; STATE_WORDS],
) -> Option<i64>
    ensures { NumberTold m.now.now outline.now state.now at.old result at.new }
{
    let p = *at;
    let e = *m;
    if stands(e, p, 9) && e[p] == 0x22 && e[p + 1] == 0x21 && is_entry(e, p + 3) {
        *at = p + 9;
        let x = variable_at(m, p + 1, outline, state);
        let y = entry_at(e, p + 3, outline, state);
        return ranged(sum(x, y));
    }
    None
}

// 22 and two tables' entries at the cursor.
pub fn two_entries(
    m: &&[u8],
    at: &mut usize,
    outline: &[u64; PREPARED_WORDS],
    state: &[u64; STATE_WORDS],
) -> Option<i64>
    requires { Begins m.now.now at.old 0x22 }
    ensures { NumberTold m.now.now outline.now state.now at.old result at.new }
{
    let p = *at;
    let e = *m;
    if stands(e, p, 13) && is_entry(e, p + 1) && is_entry(e, p + 7) {
        *at = p + 13;
        let x = entry_at(e, p + 1, outline, state);
        let y = entry_at(e, p + 7, outline, state);
        return ranged(sum(x, y));
    }
    None
}

// 22 to 27 and two leaves at the cursor.
fn two_leaves(
    b: u8,
    m: &&[u8],
    at: &mut usize,
    outline: &[u64; PREPARED_WORDS],
    state: &[u64; STATE_WORDS],
) -> Option<i64>
    requires { Begins m.now.now at.old b × (is_operation b ≡ true) }
    ensures { NumberTold m.now.now outline.now state.now at.old result at.new }
{
    *at += 1;
    let x = leaf(m, at, outline, state)?;
    let y = leaf(m, at, outline, state)?;
    operation(b, x, y)
}

// A leaf, or 22 to 27 and two leaves.
pub fn simple(
    m: &&[u8],
    at: &mut usize,
    outline: &[u64; PREPARED_WORDS],
    state: &[u64; STATE_WORDS],
) -> Option<i64>
    ensures { NumberTold m.now.now outline.now state.now at.old result at.new }
{
    let b = first_byte(*m, *at);
    if is_operation(b) {
        return two_leaves(b, m, at, outline, state);
    }
    leaf(m, at, outline, state)
}
