// Slots: a node's words written into one, and the test whether a node beats another.

ghost use Rattle.std.specs.Prelude.{◌≡◌, ◌++◌, ◌*◌, ◌+◌, ◌≤◌, length};
ghost use Rattle.steps.specs.InBytes.{Outlined};
ghost use Rattle.beam_order.specs.Slots.{slot_words};
ghost use Rattle.beam.specs.Nodes.{ChildWords, dominates_at};
ghost use Rattle.beam.specs.Parts.{written, sought as slot_sought};

use beam_order::slots::{HEADER_WORDS, SLOT_WORDS, STATE_AT, g_in};
use costs::at_most;
use model::Cost;
use outline::layout::{PREPARED_WORDS, STATE_WORDS};
use steps::states::dominates;

// Writes a node's header and state into slot s.
pub fn write_slot(
    slots: &mut [u64],
    s: usize,
    header: &[u64; HEADER_WORDS],
    state: &[u64; STATE_WORDS],
)
    requires { (s * slot_words + slot_words ≤ length slots.old) × ChildWords header.now state.now }
    ensures { slots.new ≡ written slots.old s (header.now ++ state.now) }
{
    let at = s * SLOT_WORDS;
    slots[at..at + STATE_AT].copy_from_slice(header);
    slots[at + STATE_AT..at + SLOT_WORDS].copy_from_slice(state);
}

// Whether state a at this g dominates state b at its g, which is no less.
fn beats(
    model: &[u8],
    outline: &[u64; PREPARED_WORDS],
    g: Cost,
    a: &[u64],
    other: Cost,
    b: &[u64],
) -> bool
    requires { Outlined model.now outline.now }
    ensures { result ≡ dominates_at model.now g a.now other b.now }
{
    at_most(g, other) && dominates(model, outline, a, b)
}

// Whether the node in slot s beats the child, or, for beaten, the child it.
pub fn sought(
    model: &[u8],
    outline: &[u64; PREPARED_WORDS],
    slots: &[u64],
    s: usize,
    header: &[u64; HEADER_WORDS],
    state: &[u64; STATE_WORDS],
    beaten: bool,
) -> bool
    requires { Outlined model.now outline.now × ((s * slot_words + slot_words ≤ length slots.now) × ChildWords header.now state.now) }
    ensures { result ≡ slot_sought model.now slots.now (header.now ++ state.now) beaten s }
{
    let at = s * SLOT_WORDS;
    let g = g_in(header, 0);
    let other = g_in(slots, at);
    if beaten {
        return beats(
            model,
            outline,
            g,
            state,
            other,
            &slots[at + STATE_AT..at + SLOT_WORDS],
        );
    }
    beats(
        model,
        outline,
        other,
        &slots[at + STATE_AT..at + SLOT_WORDS],
        g,
        state,
    )
}
