// Sets at the cursor: variables and literals, and forms of such sets two deep. Where nothing is told the cursor stays. An Option in place of
// that was tried, and is slower for models with many sets.

ghost use Rattle.std.specs.Prelude.{◌≡◌, true, ◌<◌};
ghost use Rattle.eval_sets.specs.Runs.{objects_in};
ghost use Rattle.cursor.specs.Places.{Stands, Begins};
ghost use Rattle.cursor.specs.Told.{SetTold};
ghost use Rattle.cursor.specs.Codes.{combined_by, is_change, is_combination, behind_leaf, is_deep};

use crate::places::{first_byte, stands};
use outline::layout::{KINDS, PREPARED_WORDS, STATE_WORDS};
use outline::word_at;
use quick::sets::{begins_element, object};
use words::literals::long;
use words::sets::{difference, full, intersection, single, union};
use words::sizes::MOST_OBJECTS;

// 41 v or 40 n x at the cursor.
fn leaf_set(
    m: &&[u8],
    at: &mut usize,
    outline: &[u64; PREPARED_WORDS],
    state: &[u64; STATE_WORDS],
) -> u64
    ensures { SetTold m.now.now outline.now state.now at.old result at.new }
{
    let p = *at;
    let e = *m;
    if stands(e, p, 2) {
        if e[p] == 0x41 {
            *at = p + 2;
            return word_at(state, e[p + 1] as usize);
        }
        if e[p] == 0x40 && stands(e, p, 10) {
            *at = p + 10;
            return long(&e[p + 2..]);
        }
    }
    0
}

// 44 to 46
#[tactic(auto, unfolding(crate::specs::Codes::combined_by))]
fn combined(b: u8, s: u64, t: u64) -> u64
    ensures { result ≡ combined_by b s t }
{
    match b {
        0x44 => union(s, t),
        0x45 => intersection(s, t),
        _ => difference(s, t),
    }
}

// 44 to 46 and two leaves at the cursor.
fn two_leaves(
    b: u8,
    m: &&[u8],
    at: &mut usize,
    outline: &[u64; PREPARED_WORDS],
    state: &[u64; STATE_WORDS],
) -> u64
    requires { Begins m.now.now at.old b × (is_combination b ≡ true) }
    ensures { SetTold m.now.now outline.now state.now at.old result at.new }
{
    let p = *at;
    *at = p + 1;
    let s = leaf_set(m, at, outline, state);
    let q = *at;
    if q == p + 1 {
        *at = p;
        return 0;
    }
    let t = leaf_set(m, at, outline, state);
    if *at == q {
        *at = p;
        return 0;
    }
    combined(b, s, t)
}

// 42 or 43, an element and 41 v at the cursor.
fn changed(
    b: u8,
    m: &&[u8],
    at: &mut usize,
    outline: &[u64; PREPARED_WORDS],
    state: &[u64; STATE_WORDS],
) -> u64
    requires { Begins m.now.now at.old b × (is_change b ≡ true) }
    ensures { SetTold m.now.now outline.now state.now at.old result at.new }
{
    let p = *at;
    let e = *m;
    if stands(e, p, 5) && e[p + 3] == 0x41 && begins_element(e[p + 1]) {
        *at = p + 5;
        let s = word_at(state, e[p + 4] as usize);
        let k = single(object(e[p + 1], e[p + 2], state));
        if b == 0x42 {
            return union(k, s);
        }
        return difference(s, k);
    }
    0
}

// The objects of the set variable v, by its kind word.
fn objects_in(outline: &[u64; PREPARED_WORDS], v: usize) -> u64
    requires { v < 256 }
    ensures { result ≡ objects_in outline.now v }
{
    word_at(outline, KINDS + v).saturating_sub(MOST_OBJECTS)
}

// 47 41 v at the cursor.
fn complement(
    m: &&[u8],
    at: &mut usize,
    outline: &[u64; PREPARED_WORDS],
    state: &[u64; STATE_WORDS],
) -> u64
    requires { Begins m.now.now at.old 0x47 }
    ensures { SetTold m.now.now outline.now state.now at.old result at.new }
{
    let p = *at;
    let e = *m;
    if stands(e, p, 3) && e[p + 1] == 0x41 {
        *at = p + 3;
        let v = e[p + 2] as usize;
        return difference(full(objects_in(outline, v)), word_at(state, v));
    }
    0
}

// Whether this byte adds an element or takes it out: 42 or 43.
#[tactic(auto, unfolding(crate::specs::Codes::is_change))]
fn is_change(b: u8) -> bool
    ensures { result ≡ is_change b }
{
    0x42 <= b && b < 0x44
}

// Whether this byte makes a set of two: 44 to 46.
#[tactic(auto, unfolding(crate::specs::Codes::is_combination))]
fn is_combination(b: u8) -> bool
    ensures { result ≡ is_combination b }
{
    0x44 <= b && b < 0x47
}

// A near set: a leaf, or a form of leaves.
pub fn near_set(
    m: &&[u8],
    at: &mut usize,
    outline: &[u64; PREPARED_WORDS],
    state: &[u64; STATE_WORDS],
) -> u64
    ensures { SetTold m.now.now outline.now state.now at.old result at.new }
{
    let b = first_byte(*m, *at);
    if is_change(b) {
        return changed(b, m, at, outline, state);
    }
    if is_combination(b) {
        return two_leaves(b, m, at, outline, state);
    }
    if b == 0x47 {
        return complement(m, at, outline, state);
    }
    leaf_set(m, at, outline, state)
}

// 44 to 46 and two near sets at the cursor.
fn two_sets(
    b: u8,
    m: &&[u8],
    at: &mut usize,
    outline: &[u64; PREPARED_WORDS],
    state: &[u64; STATE_WORDS],
) -> u64
    requires { Begins m.now.now at.old b × (is_combination b ≡ true) }
    ensures { SetTold m.now.now outline.now state.now at.old result at.new }
{
    let p = *at;
    *at = p + 1;
    let s = near_set(m, at, outline, state);
    let q = *at;
    if q == p + 1 {
        *at = p;
        return 0;
    }
    let t = near_set(m, at, outline, state);
    if *at == q {
        *at = p;
        return 0;
    }
    combined(b, s, t)
}

// Where the second of two sets stands whose first one begins with b and is a leaf, from the byte before both on.
#[tactic(auto, unfolding(crate::specs::Codes::behind_leaf))]
fn behind_leaf(b: u8) -> usize
    ensures { result ≡ behind_leaf b }
{
    if b == 0x41 { 3 } else { 11 }
}

// Whether one of the two sets behind a place is no leaf.
#[tactic(auto, unfolding(crate::specs::Codes::is_deep, crate::specs::Codes::behind_leaf))]
fn is_deep(e: &[u8], p: usize) -> bool
    requires { Stands e.now p 1 }
    ensures { result ≡ is_deep e.now p }
{
    let b = first_byte(e, p + 1);
    0x42 <= b || 0x42 <= first_byte(e, p + behind_leaf(b))
}

// A near set, or 44 to 46 and two of them, of which one is no leaf.
pub fn set(
    m: &&[u8],
    at: &mut usize,
    outline: &[u64; PREPARED_WORDS],
    state: &[u64; STATE_WORDS],
) -> u64
    ensures { SetTold m.now.now outline.now state.now at.old result at.new }
{
    let p = *at;
    let b = first_byte(*m, p);
    if is_combination(b) && is_deep(*m, p) {
        return two_sets(b, m, at, outline, state);
    }
    near_set(m, at, outline, state)
}
