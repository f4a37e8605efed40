// A layer: its nodes in order.

ghost use Rattle.std.specs.Prelude.{◌-◌};
ghost use Rattle.search_paths.specs.Routes.{current_of};
ghost use Rattle.search_visits.specs.Work.{layer_in, Ready, Leaves};

use crate::visits::visit;
use crate::work::{Limits, Round, Spot, Visited};
use outline::layout::PREPARED_WORDS;

// Takes the n nodes of layer k in order.
pub fn layer(
    words: &mut [u64],
    plan: &mut [u8],
    model: &[u8],
    outline: &[u64; PREPARED_WORDS],
    limits: Limits,
    k: usize,
    n: usize,
    round: Round,
) -> Visited
    requires { Ready model.now outline.now words.old plan.old limits.width limits.length k n round }
    ensures { Leaves model.now outline.now words.old words.new plan.old plan.new limits.width limits.length k round result (layer_in model.now limits.budget limits.width (limits.length - k) (current_of model.now words.old limits.width k n)) }
{
    let mut now = round;
    for i in 0..n {
        let spot = Spot { layer: k, slot: i };
        let x = visit(words, plan, model, outline, limits, spot, now);
        now = x.round;
        if x.next.is_err() {
            return x;
        }
    }
    Visited {
        round: now,
        next: Ok(()),
    }
}
