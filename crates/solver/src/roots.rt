// The node that every round starts with.

ghost use Rattle.std.specs.Prelude.{◌≡◌, ◌++◌, length};
ghost use Rattle.model.specs.Numbers.{most_variables};
ghost use Rattle.model.specs.Costs.{free, hours};
ghost use Rattle.beam_order.specs.Slots.{slot_words};
ghost use Rattle.beam.specs.Nodes.{header_of};

use beam::slots::write_slot;
use beam_order::slots::{F_AT, H_AT, HEADER_WORDS};
use outline::layout::STATE_WORDS;

// Writes the words of the root: a state that nothing was spent on, h being its bound.
pub fn write_root(state: &[u64; STATE_WORDS], h: u64, root: &mut [u64])
    requires { (length state.now ≡ most_variables) × (length root.old ≡ slot_words) }
    ensures { root.new ≡ header_of free h (hours h) 0 ++ state.now }
{
    let mut header = [0u64; HEADER_WORDS];
    header[H_AT] = h;
    header[F_AT] = h;
    write_slot(root, 0, &header, state);
}
