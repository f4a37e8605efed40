// The plan check on the bytes of a model and of a plan.

#![tactic(auto)]

ghost use Rattle.model.specs.Check as plans;
ghost use Rattle.steps.specs.Follow.{CheckedIs};

use model::length_fits;
use outline::layout::PREPARED_WORDS;
use prepare::read_and_prepare;
use steps::answers::Checked;
use steps::check::{follow, refused_plan};

// The steps that a plan may have.
const MOST_STEPS: usize = 256;

// The plan check: 0 and the cost, or the number of the refusal and 0.
pub fn check(model: &[u8], plan: &[u8]) -> Checked
    ensures { CheckedIs (plans.check model.now plan.now) result }
{
    if length_fits(model.len()) {
        if MOST_STEPS < plan.len() {
            return refused_plan(2);
        }
        let mut outline = [0u64; PREPARED_WORDS];
        return match read_and_prepare(model, &mut outline) {
            Ok(()) => follow(model, &outline, plan),
            Err(refusal) => refused_plan(refusal.number()),
        };
    }
    refused_plan(1)
}
