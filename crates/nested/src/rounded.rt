// Quotients rounded up, as bounds have them, read in place where the sum inside is known, sound or silent.

ghost use Rattle.std.specs.Prelude.{◌≡◌, true, ◌+◌, ◌<◌};
ghost use Rattle.std.specs.Int.Signed.{mag};
ghost use Rattle.model.specs.Numbers.{range_end};
ghost use Rattle.cursor.specs.Places.{Begins};
ghost use Rattle.cursor.specs.Told.{NumberTo, NumberTold};
ghost use Rattle.cursor.specs.Codes.{OperationTold};
ghost use Rattle.nested.specs.Known.{KnownAt, LessForm, QuotientForm, RoundedForm};

use cursor::numbers::{literal_at, quotient, ranged, variable_at};
use cursor::places::{first_byte, stands};
use cursor_conditions::terms::{choice, scaled_choice};
use outline::layout::{PREPARED_WORDS, STATE_WORDS};
use words::arithmetic::difference;

// 23 of two numbers in range.
fn less(x: i64, y: i64) -> Option<i64>
    requires { (mag x < range_end) × (mag y < range_end) }
    ensures { OperationTold 0x23 x y result }
{
    ranged(difference(x, y))
}

// 23 20 and a number at p, less x, which stands behind it and ends at q.
fn literal_less(
    m: &&[u8],
    p: usize,
    q: usize,
    x: i64,
    outline: &[u64; PREPARED_WORDS],
    state: &[u64; STATE_WORDS],
) -> Option<i64>
    requires { LessForm m.now.now p × NumberTo m.now.now outline.now state.now (p + 6) x q }
    ensures { NumberTold m.now.now outline.now state.now p result q }
{
    let z = literal_at(m, p + 1, outline, state);
    less(z, x)
}

// The sum that is known, or 23, this sum and a number variable, at the cursor.
fn known_part(
    m: &&[u8],
    at: &mut usize,
    outline: &[u64; PREPARED_WORDS],
    state: &[u64; STATE_WORDS],
    place: usize,
    sum: i64,
) -> Option<i64>
    requires { KnownAt m.now.now outline.now state.now place sum }
    ensures { NumberTold m.now.now outline.now state.now at.old result at.new }
{
    let p = *at;
    let e = *m;
    if stands(e, p, 9) {
        if p == place {
            *at = p + 6;
            return Some(sum);
        }
        if p + 1 == place && e[p] == 0x23 && e[p + 7] == 0x21 {
            *at = p + 9;
            let v = variable_at(m, p + 7, outline, state);
            return less(sum, v);
        }
    }
    None
}

// Whether 23 20 z 25 23 20 and a number stand at a place.
fn is_rounded(e: &[u8], p: usize) -> bool
    ensures { result ≡ true → RoundedForm e.now p }
{
    stands(e, p, 13)
        && e[p] == 0x23
        && e[p + 1] == 0x20
        && e[p + 6] == 0x25
        && e[p + 7] == 0x23
        && e[p + 8] == 0x20
}

// 25 23 20 y, a part with the sum and 20 w at the cursor.
fn quotient_on(
    m: &&[u8],
    at: &mut usize,
    outline: &[u64; PREPARED_WORDS],
    state: &[u64; STATE_WORDS],
    place: usize,
    sum: i64,
) -> Option<i64>
    requires { QuotientForm m.now.now at.old × KnownAt m.now.now outline.now state.now place sum }
    ensures { NumberTold m.now.now outline.now state.now at.old result at.new }
{
    let p = *at;
    let e = *m;
    let mut q = p + 7;
    let x = known_part(m, &mut q, outline, state, place, sum)?;
    let d = literal_less(m, p + 1, q, x, outline, state)?;
    if stands(e, q, 5) && e[q] == 0x20 {
        *at = q + 5;
        let w = literal_at(m, q, outline, state);
        return quotient(d, w);
    }
    None
}

// 23 20 z and such a quotient at the cursor.
fn rounded_up(
    m: &&[u8],
    at: &mut usize,
    outline: &[u64; PREPARED_WORDS],
    state: &[u64; STATE_WORDS],
    place: usize,
    sum: i64,
) -> Option<i64>
    requires { KnownAt m.now.now outline.now state.now place sum }
    ensures { NumberTold m.now.now outline.now state.now at.old result at.new }
{
    let p = *at;
    if is_rounded(*m, p) {
        let mut q = p + 6;
        let u = quotient_on(m, &mut q, outline, state, place, sum)?;
        *at = q;
        return literal_less(m, p, q, u, outline, state);
    }
    None
}

// 23, such a number and a choice between two literals at the cursor.
fn rounded_less(
    m: &&[u8],
    at: &mut usize,
    outline: &[u64; PREPARED_WORDS],
    state: &[u64; STATE_WORDS],
    place: usize,
    sum: i64,
) -> Option<i64>
    requires { Begins m.now.now at.old 0x23 × KnownAt m.now.now outline.now state.now place sum }
    ensures { NumberTold m.now.now outline.now state.now at.old result at.new }
{
    let p = *at;
    let mut q = p + 1;
    let x = rounded_up(m, &mut q, outline, state, place, sum)?;
    if first_byte(*m, q) == 0x2b {
        let mut near = q;
        if let Some(z) = scaled_choice(m, &mut near, outline, state) {
            *at = near;
            return less(x, z);
        }
        let y = choice(m, &mut q, outline, state)?;
        *at = q;
        return less(x, y);
    }
    None
}

// One of these two at the cursor.
pub fn rounded(
    m: &&[u8],
    at: &mut usize,
    outline: &[u64; PREPARED_WORDS],
    state: &[u64; STATE_WORDS],
    place: usize,
    sum: i64,
) -> Option<i64>
    requires { KnownAt m.now.now outline.now state.now place sum }
    ensures { NumberTold m.now.now outline.now state.now at.old result at.new }
{
    let p = *at;
    let mut q = p;
    if let Some(z) = rounded_up(m, &mut q, outline, state, place, sum) {
        *at = q;
        return Some(z);
    }
    if first_byte(*m, p) == 0x23 {
        return rounded_less(m, at, outline, state, place, sum);
    }
    None
}
