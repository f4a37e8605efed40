// The plan as a part of the caller's own buffer.

ghost use Rattle.std.specs.Prelude.{◌≡◌};
ghost use Rattle.search.specs.Answer.{handed_back};

// The first part of the caller's own buffer, where the plan stands; the empty part where that is beyond the buffer.
pub fn plan_part(plan: &mut [u8], steps: usize) -> &mut [u8]
    ensures { result.now ≡ handed_back steps plan.old }
{
    if steps <= plan.len() {
        &mut plan[..steps]
    } else {
        &mut plan[..0]
    }
}
