// What stands at a place of the model.

ghost use Rattle.std.specs.Prelude.{◌≡◌, true};
ghost use Rattle.cursor.specs.Places.{Stands, FirstByte, BehindAll};

use eval_sets::bytes::{after, skip};

// Whether n bytes stand at a place.
pub fn stands(e: &[u8], at: usize, n: usize) -> bool
    ensures { result ≡ true → Stands e.now at n }
{
    n <= e.len() && at <= e.len() - n
}

// The byte at a place, 0 where there is none.
pub fn first_byte(e: &[u8], at: usize) -> u8
    ensures { FirstByte e.now at result }
{
    if at < e.len() { e[at] } else { 0 }
}

// The place behind so many expressions.
pub fn behind(e: &[u8], at: usize, parts: usize) -> usize
    requires { Stands e.now at 0 }
    ensures { BehindAll e.now at parts result }
{
    let mut q = at;
    for _ in 0..parts {
        q += skip(after(e, q));
    }
    q
}
