// A table's entries, read where they stand in the model's bytes. A table is one word: its columns, its cells and where they begin.

ghost use Rattle.std.specs.Prelude.{◌≡◌, true, ◌+◌, ◌*◌, ◌^◌, ◌≤◌, ◌<◌};
ghost use Rattle.std.specs.Int.Signed.{mag};
ghost use Rattle.model.specs.Numbers.{most_objects, range_end};
ghost use Rattle.model.specs.Sets as Sets;
ghost use Rattle.model.specs.Meaning.{sum_over};
ghost use Rattle.words.specs.Tables.{integer_at, cell_at, entry_in, columns_of, cells_of, at_of, column_sum, half, Spaced, SomeOfHalf, Covered};

use crate::literals::integer;
use crate::sets::{difference, members};
use crate::sizes::{HALF, HALF_SETS};

// The entry in cell k of the table whose entries begin at `at`.
fn cell(model: &[u8], at: usize, k: usize) -> i64
    requires { (at ≤ 131071) × (k < 8192) }
    ensures { (result ≡ cell_at model.now at k) × (mag result < range_end) }
{
    let from = at + 5 * k + 1;
    if from + 4 <= model.len() {
        return integer(&model[from..]);
    }
    0
}

// The entry of a table at row i, column j.
pub fn entry(model: &[u8], table: u64, i: u64, j: u64) -> i64
    requires { (i < most_objects) × (j < most_objects) }
    ensures { (result ≡ entry_in model.now (at_of table) (columns_of table) (cells_of table) i j) × (mag result < range_end) }
{
    let k = i * (table % 128) + j;
    if k < table / 128 % 8192 {
        return cell(model, (table / 1048576 % 131072) as usize, k as usize);
    }
    0
}

// The sum of the integers at first + stride * i, for the members i of s, with no test on the way. It may leave the range.
fn summed(model: &[u8], s: u64, first: usize, stride: usize) -> i64
    requires { (s < 2 ^ half) × (Spaced model.now s first stride) }
    ensures { (result ≡ sum_over (λ i. integer_at model.now (first + stride * i)) (Sets.members s)) × (mag result ≤ half * range_end) }
{
    let mut sum: i64 = 0;
    for i in members(s) {
        sum += integer(&model[first + stride * i as usize..]);
    }
    sum
}

// Whether the table has all the cells in column j at the rows from + i, for the members i of s, and the model its bytes.
fn covers(model: &[u8], table: u64, s: u64, from: u64, j: u64) -> bool
    requires { SomeOfHalf s from j }
    ensures { result ≡ true → Covered model.now table s from j }
{
    let last = 63 - (u64::leading_zeros(s) as u64);
    let cells = table / 128 % 8192;
    (from + last) * (table % 128) + j < cells
        && table / 1048576 % 131072 + 5 * cells <= model.len() as u64
}

// The sum of the entries in column j at the rows from + i, for the members i of s, each asked for. It may leave the range.
fn walked_far(model: &[u8], table: u64, s: u64, from: u64, j: u64) -> i64
    requires { (s < 2 ^ half) × (from ≤ half) × (j < most_objects) }
    ensures { (result ≡ sum_over (λ i. entry_in model.now (at_of table) (columns_of table) (cells_of table) (from + i) j) (Sets.members s)) × (mag result ≤ half * range_end) }
{
    // A `for` over members(s), as in `summed` and `few`, takes 7 in a hundred longer here.
    let mut left = s;
    let mut sum: i64 = 0;
    while left != 0 {
        let i = from + (u64::trailing_zeros(left) as u64);
        sum += entry(model, table, i, j);
        left = left & (left - 1);
    }
    sum
}

// The sum of the entries in column j at the rows from + i, for the members i of s. It may leave the range.
fn walked(model: &[u8], table: u64, s: u64, from: u64, j: u64) -> i64
    requires { (s < 2 ^ half) × (from ≤ half) × (j < most_objects) }
    ensures { (result ≡ sum_over (λ i. entry_in model.now (at_of table) (columns_of table) (cells_of table) (from + i) j) (Sets.members s)) × (mag result ≤ half * range_end) }
{
    if s == 0 {
        return 0;
    }
    if covers(model, table, s, from, j) {
        let columns = table % 128;
        let first = table / 1048576 % 131072 + 5 * (from * columns + j) + 1;
        return summed(model, s, first as usize, (5 * columns) as usize);
    }
    walked_far(model, table, s, from, j)
}

// The sum of the entries in column j at the rows that are members of s: over objects 0 to 31, over 32 to 63, and both added.
// The range is not asked here: a half may leave it where the total does not.
pub fn total(model: &[u8], table: u64, s: u64, j: u64) -> i64
    requires { j < most_objects }
    ensures { result ≡ column_sum model.now table s j }
{
    let lower = walked(model, table, s % HALF_SETS, 0, j);
    let upper = walked(model, table, s / HALF_SETS, HALF, j);
    lower + upper
}

// The same sum, for a set of few members: each entry is asked for.
fn few(model: &[u8], table: u64, s: u64, j: u64) -> i64
    requires { j < most_objects }
    ensures { (result ≡ column_sum model.now table s j) × (mag result ≤ most_objects * range_end) }
{
    let mut sum: i64 = 0;
    for i in members(s) {
        sum += entry(model, table, i, j);
    }
    sum
}

// The same sum from the sum over another set: less the entries of the members that are gone, plus those of the members that have come.
pub fn total_from(model: &[u8], table: u64, known: u64, sum: i64, s: u64, j: u64) -> i64
    requires { (j < most_objects) × (sum ≡ column_sum model.now table known j) × (mag sum < range_end) }
    ensures { result ≡ column_sum model.now table s j }
{
    let gone = few(model, table, difference(known, s), j);
    let come = few(model, table, difference(s, known), j);
    sum - gone + come
}
