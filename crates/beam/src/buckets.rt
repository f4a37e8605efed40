// The bucket of a state, by its hash.

ghost use Rattle.std.specs.Prelude.{◌≡◌, ◌*◌, ◌+◌, ◌≤◌, ◌<◌, length};
ghost use Rattle.steps.specs.InBytes.{Outlined};
ghost use Rattle.beam_order.specs.Slots.{slot_words};
ghost use Rattle.beam.specs.Buckets.{bucket_of, BucketCount};
ghost use Rattle.beam.specs.Parts.{bucket_in};

use beam_order::slots::{SLOT_WORDS, STATE_AT};
use outline::layout::PREPARED_WORDS;
use steps::hashes::hash;

// The bucket of a state, of `size` many.
pub fn bucket(model: &[u8], outline: &[u64; PREPARED_WORDS], state: &[u64], size: usize) -> usize
    requires { Outlined model.now outline.now × BucketCount size }
    ensures { (result < size) × (result ≡ bucket_of outline.now state.now size) }
{
    let h = hash(model, outline, state);
    (h % 4294967296) as usize * size / 4294967296
}

// The bucket of the node in slot s.
pub fn slot_bucket(
    model: &[u8],
    outline: &[u64; PREPARED_WORDS],
    slots: &[u64],
    s: usize,
    size: usize,
) -> usize
    requires { Outlined model.now outline.now × ((s * slot_words + slot_words ≤ length slots.now) × BucketCount size) }
    ensures { (result < size) × (result ≡ bucket_in outline.now slots.now size s) }
{
    let at = s * SLOT_WORDS;
    bucket(model, outline, &slots[at + STATE_AT..at + SLOT_WORDS], size)
}
