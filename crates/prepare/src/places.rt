// Where the entries of a table stand.

ghost use Rattle.std.specs.Prelude.{◌<◌, ◌≤◌, length};
ghost use Rattle.model.specs.Numbers.{most_tables};
ghost use Rattle.prepare.specs.Layout.{prepared_words};
ghost use Rattle.prepare.specs.Promised.{Room, PlacesPut, PlacePut};

use crate::writing::put;
use outline::layout::{PLACES, TABLE_COUNT, TABLES};
use outline::word_at;

// Puts the places of table t: its word holds its columns, its cells and where they begin.
fn put_places(outline: &mut [u64], t: usize)
    requires { (prepared_words ≤ length outline.old) × (t < most_tables) }
    ensures { PlacePut outline.old outline.new t }
{
    let table = word_at(outline, TABLES + t);
    let first = table / 1048576 % 131072 + 1;
    let stride = 5 * (table % 128);
    let size = 5 * (table / 128 % 8192);
    let words = [first, stride, size];
    put(outline, PLACES + 3 * t, &words);
}

// Puts the places of all tables.
pub fn places(model: &[u8], outline: &mut [u64])
    requires { Room model.now outline.old }
    ensures { PlacesPut model.now outline.old outline.new }
{
    let all = word_at(outline, TABLE_COUNT) as usize;
    for t in 0..all {
        put_places(outline, t);
    }
}
