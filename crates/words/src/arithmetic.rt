// Whole numbers: the range, the four operations on numbers in it, and a number variable's word.

ghost use Rattle.std.specs.Prelude.{◌≡◌, ◌≤◌, ◌<◌, ◌%◌, ltb, pos, nat_abs, ◌+ℤ◌, ◌-ℤ◌, ◌*ℤ◌};
ghost use Rattle.std.specs.Int.Signed.{mag};
ghost use Rattle.model.specs.Numbers.{range_end, range_size};
ghost use Rattle.model.specs.Values.{value, floor_by, floor_quotient};
ghost use Rattle.words.specs.Signs.{Positive, NotZero, mirrored};

use crate::sizes::{RANGE_END, RANGE_SIZE, RANGE_START};

// Whether z is a number that an expression may have.
pub fn in_range(z: i64) -> bool
    ensures { result ≡ ltb (mag z) range_end }
{
    RANGE_START <= z && z < RANGE_END
}

// The sum of two numbers in range.
pub fn sum(a: i64, b: i64) -> i64
    requires { (mag a < range_end) × (mag b < range_end) }
    ensures { result ≡ a +ℤ b }
{
    a + b
}

// The difference of two numbers in range.
pub fn difference(a: i64, b: i64) -> i64
    requires { (mag a < range_end) × (mag b < range_end) }
    ensures { result ≡ a -ℤ b }
{
    a - b
}

// The product of two numbers in range.
pub fn product(a: i64, b: i64) -> i64
    requires { (mag a < range_end) × (mag b < range_end) }
    ensures { result ≡ a *ℤ b }
{
    a * b
}

// -1 - z
fn mirror(z: i64) -> i64
    ensures { result ≡ mirrored z }
{
    -1 - z
}

// The quotient by a positive m, rounded down.
fn floor_by(a: i64, m: i64) -> i64
    requires { Positive m }
    ensures { result ≡ floor_by a (nat_abs m) }
{
    if a < 0 {
        return mirror(mirror(a) / m);
    }
    a / m
}

// The quotient of two numbers in range, rounded down.
pub fn floor_quotient(a: i64, b: i64) -> i64
    requires { (mag a < range_end) × (mag b < range_end) × NotZero b }
    ensures { (floor_quotient a b ≡ value result) × (mag result ≤ range_end) }
{
    if b < 0 {
        return floor_by(0 - a, 0 - b);
    }
    floor_by(a, b)
}

// The number in a number variable's word.
pub fn signed_word(w: u64) -> i64
    ensures { (result ≡ pos (w % range_size) -ℤ pos range_end) × (mag result < range_end) }
{
    ((w % RANGE_SIZE) as i64) - RANGE_END
}

// A number variable's word for a number in range.
pub fn biased(z: i64) -> u64
    requires { mag z < range_end }
    ensures { (pos result ≡ z +ℤ pos range_end) × (result < range_size) }
{
    (z + RANGE_END) as u64
}
