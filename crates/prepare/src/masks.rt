// What is compared and hashed of a variable.

ghost use Rattle.std.specs.Prelude.{◌≡◌, ◌<◌, ◌≤◌, length};
ghost use Rattle.model.specs.Numbers.{most_variables};
ghost use Rattle.prepare.specs.Layout.{prepared_words};
ghost use Rattle.prepare.specs.Prepared.{compared_mask, hashed_mask};
ghost use Rattle.prepare.specs.Promised.{Room, MasksPut, MaskPut};

use crate::writing::put;
use outline::layout::{KINDS, MASKS, PREFERENCES, STATE_WORDS};
use outline::word_at;
use words::sizes::{MOST_OBJECTS, RANGE_SIZE};

// The bits of a word that are compared, by the byte of its variable's kind.
#[tactic(auto, unfolding(crate::specs::Prepared::compared_mask))]
fn compared_mask(kind: u64) -> u64
    ensures { result ≡ compared_mask kind }
{
    if kind == 0 {
        return RANGE_SIZE - 1;
    }
    if kind <= MOST_OBJECTS {
        return MOST_OBJECTS - 1;
    }
    18446744073709551615
}

// The bits of a word that are hashed.
#[tactic(auto, unfolding(crate::specs::Prepared::hashed_mask))]
fn hashed_mask(kind: u64, preference: u64) -> u64
    ensures { result ≡ hashed_mask kind preference }
{
    if preference == 0 {
        return compared_mask(kind);
    }
    0
}

// Puts the masks of variable v.
fn put_masks(outline: &mut [u64], v: usize)
    requires { (prepared_words ≤ length outline.old) × (v < most_variables) }
    ensures { MaskPut outline.old outline.new v }
{
    let kind = word_at(outline, KINDS + v);
    let preference = word_at(outline, PREFERENCES + v);
    let compared = compared_mask(kind);
    let hashed = hashed_mask(kind, preference);
    let words = [compared, hashed];
    put(outline, MASKS + 2 * v, &words);
}

// Puts the masks of all variables that there may be.
pub fn masks(model: &[u8], outline: &mut [u64])
    requires { Room model.now outline.old }
    ensures { MasksPut outline.old outline.new }
{
    for v in 0..STATE_WORDS {
        put_masks(outline, v);
    }
}
