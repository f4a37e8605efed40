// Numbers of several operations, read along a cursor, sound or silent. Operations wait for their numbers in two small arrays; no function calls itself.

#![tactic(auto)]

pub mod rounded;

ghost use Rattle.std.specs.Prelude.{◌≡◌, false, length, pos};
ghost use Rattle.quick.specs.Sums.{Remembers};
ghost use Rattle.cursor.specs.Places.{Begins, FirstByte};
ghost use Rattle.cursor.specs.Told.{NumberTold};
ghost use Rattle.nested.specs.Known.{KnownAt};
ghost use Rattle.nested.specs.Waiting.{Reads};

use cursor::numbers::{entry_on, is_operation, literal, operation, ranged};
use cursor::places::{first_byte, stands};
use cursor::sets::near_set;
use cursor_conditions::terms::choice;
use outline::layout::{PREPARED_WORDS, STATE_WORDS, TABLES};
use outline::word_at;
use quick::sets::{begins_element, object};
use quick::sums::{SUM_WORDS, is_variable_total, last_total};
use words::arithmetic::{biased, signed_word};
use words::tables::total;

// How many operations may wait.
const MOST_WAITING: usize = 8;

// Added to the byte of an operation that has its first number.
const HAS_FIRST: u8 = 0x60;

// 21 v at the cursor.
fn variable(
    m: &&[u8],
    at: &mut usize,
    outline: &[u64; PREPARED_WORDS],
    state: &[u64; STATE_WORDS],
) -> Option<i64>
    requires { Begins m.now.now at.old 0x21 }
    ensures { NumberTold m.now.now outline.now state.now at.old result at.new }
{
    let p = *at;
    let e = *m;
    if stands(e, p, 2) {
        *at = p + 2;
        return Some(signed_word(word_at(state, e[p + 1] as usize)));
    }
    None
}

// 2A t 41 v 30 j at the cursor, from the last sum where that is the same.
fn summed(
    m: &&[u8],
    at: &mut usize,
    outline: &[u64; PREPARED_WORDS],
    state: &[u64; STATE_WORDS],
    sums: &mut [u64; SUM_WORDS],
) -> Option<i64>
    requires { Remembers m.now.now outline.now sums.old }
    ensures { NumberTold m.now.now outline.now state.now at.old result at.new × Remembers m.now.now outline.now sums.new }
{
    let p = *at;
    let e = *m;
    if stands(e, p, 6) && is_variable_total(e, p) {
        *at = p + 6;
        return ranged(last_total(e, p, outline, state, sums));
    }
    None
}

// 2A t, a near set and an element at the cursor.
fn summed_near(
    m: &&[u8],
    at: &mut usize,
    outline: &[u64; PREPARED_WORDS],
    state: &[u64; STATE_WORDS],
) -> Option<i64>
    requires { Begins m.now.now at.old 0x2a }
    ensures { NumberTold m.now.now outline.now state.now at.old result at.new }
{
    let p = *at;
    let e = *m;
    if stands(e, p, 2) {
        *at = p + 2;
        let s = near_set(m, at, outline, state);
        let q = *at;
        if q == p + 2 {
            return None;
        }
        if stands(e, q, 2) && begins_element(e[q]) {
            *at = q + 2;
            let table = word_at(outline, TABLES + e[p + 1] as usize);
            let j = object(e[q], e[q + 1], state);
            return ranged(total(e, table, s, j));
        }
    }
    None
}

// A number without operations at the cursor, which begins with byte b. A table's sum at `place` is known: `sum`; others are remembered in `sums`.
fn part(
    b: u8,
    m: &&[u8],
    at: &mut usize,
    outline: &[u64; PREPARED_WORDS],
    state: &[u64; STATE_WORDS],
    place: usize,
    sum: i64,
    sums: &mut [u64; SUM_WORDS],
) -> Option<i64>
    requires { FirstByte m.now.now at.old b × KnownAt m.now.now outline.now state.now place sum × Remembers m.now.now outline.now sums.old }
    ensures { NumberTold m.now.now outline.now state.now at.old result at.new × Remembers m.now.now outline.now sums.new }
{
    if b == 0x20 {
        return literal(m, at, outline, state);
    }
    if b == 0x21 {
        return variable(m, at, outline, state);
    }
    if b == 0x28 {
        let mut end = *at;
        let z = entry_on(m, &mut end, outline, state);
        *at = end;
        return z;
    }
    if b == 0x2a {
        if *at == place {
            *at = place + 6;
            return Some(sum);
        }
        let p = *at;
        if let Some(z) = summed(m, at, outline, state, sums) {
            return Some(z);
        }
        let mut far = p;
        let z = summed_near(m, &mut far, outline, state);
        *at = far;
        return z;
    }
    if b == 0x2b {
        let mut end = *at;
        let z = choice(m, &mut end, outline, state);
        *at = end;
        return z;
    }
    None
}

// A literal or a number variable at the cursor.
fn short_part(
    m: &&[u8],
    at: &mut usize,
    outline: &[u64; PREPARED_WORDS],
    state: &[u64; STATE_WORDS],
) -> Option<i64>
    ensures { NumberTold m.now.now outline.now state.now at.old result at.new }
{
    if first_byte(*m, *at) == 0x21 {
        return variable(m, at, outline, state);
    }
    literal(m, at, outline, state)
}

// Operations at the cursor whose first numbers are short, each read with its first number: as many as wait then.
fn leading(
    m: &&[u8],
    at: &mut usize,
    outline: &[u64; PREPARED_WORDS],
    state: &[u64; STATE_WORDS],
    waiting: &mut [u8; MOST_WAITING],
    firsts: &mut [u64; MOST_WAITING],
) -> usize
    requires { (length waiting.old ≡ 8) × (length firsts.old ≡ 8) }
    ensures { Reads m.now.now outline.now state.now at.old waiting.new firsts.new result at.new (pos 0) false }
{
    let mut n: usize = 0;
    loop {
        let b = first_byte(*m, *at);
        if is_operation(b) {
            if n == MOST_WAITING {
                return n;
            }
            let mut q = *at + 1;
            let Some(x) = short_part(m, &mut q, outline, state) else {
                return n;
            };
            waiting[n] = b + HAS_FIRST;
            firsts[n] = biased(x);
            n += 1;
            *at = q;
        } else {
            return n;
        }
    }
}

// Parts joined by 22 to 27 at the cursor, whatever their nesting while no more than eight operations wait. A table's sum at `place` is known: `sum`; others are remembered in `sums`.
pub fn number(
    m: &&[u8],
    at: &mut usize,
    outline: &[u64; PREPARED_WORDS],
    state: &[u64; STATE_WORDS],
    place: usize,
    sum: i64,
    sums: &mut [u64; SUM_WORDS],
) -> Option<i64>
    requires { KnownAt m.now.now outline.now state.now place sum × Remembers m.now.now outline.now sums.old }
    ensures { NumberTold m.now.now outline.now state.now at.old result at.new × Remembers m.now.now outline.now sums.new }
{
    let mut waiting = [0u8; MOST_WAITING];
    let mut firsts = [0u64; MOST_WAITING];
    let mut q = *at;
    let mut n = leading(m, &mut q, outline, state, &mut waiting, &mut firsts);
    let mut z: i64 = 0;
    let mut told = false;
    loop {
        if told {
            if n == 0 {
                *at = q;
                return Some(z);
            }
            let o = waiting[n - 1];
            if o < 0x80 {
                waiting[n - 1] = o + HAS_FIRST;
                firsts[n - 1] = biased(z);
                told = false;
            } else {
                z = operation(o - HAS_FIRST, signed_word(firsts[n - 1]), z)?;
                n -= 1;
            }
        } else {
            let b = first_byte(*m, q);
            if is_operation(b) {
                if n == MOST_WAITING {
                    return None;
                }
                waiting[n] = b;
                n += 1;
                q += 1;
            } else {
                z = part(b, m, &mut q, outline, state, place, sum, sums)?;
                told = true;
            }
        }
    }
}
