// A table's entry, in place.

ghost use Rattle.std.specs.Prelude.{◌≡◌, true, ◌<◌};
ghost use Rattle.std.specs.Int.Signed.{mag};
ghost use Rattle.model.specs.Numbers.{range_end};
ghost use Rattle.quick.specs.Entries.{EntryForm, entry_at};

use crate::sets::{begins_element, object};
use laws::byte_at;
use outline::layout::{PREPARED_WORDS, STATE_WORDS, TABLES};
use outline::word_at;
use prepare::tests::stands;
use words::tables::entry;

// Whether 28 t and two elements stand at a place.
pub fn is_entry(model: &[u8], at: usize) -> bool
    ensures { result ≡ true → EntryForm model.now at }
{
    stands(model, at, 6)
        && model[at] == 0x28
        && begins_element(model[at + 2])
        && begins_element(model[at + 4])
}

// The table's entry at the row and the column that the elements are.
pub fn entry_at(
    model: &[u8],
    at: usize,
    outline: &[u64; PREPARED_WORDS],
    state: &[u64; STATE_WORDS],
) -> i64
    requires { EntryForm model.now at }
    ensures { (result ≡ entry_at model.now at outline.now state.now) × (mag result < range_end) }
{
    let table = word_at(outline, TABLES + byte_at(model, at + 1) as usize);
    let row = object(model[at + 2], model[at + 3], state);
    let column = object(model[at + 4], model[at + 5], state);
    entry(model, table, row, column)
}
