// The functions of crates/repgypsum for C, by the same names and under the same clauses; host/repgypsum.h declares them. To C a lent slice is a
// pointer and a length.

#![tactic(auto)]

ghost use Rattle.std.specs.Prelude.{◌≡◌, ◌↔◌};
ghost use Rattle.model.specs.Check as plans;
ghost use Rattle.model.specs.Check.{IsPlan, answer_number, answer_cost, answer_low};
ghost use Rattle.solver.specs.Searches.{settings, loading_settings, list_settings, list_loading_settings, Searched};

use search_report::answers::Fields;

// The search: its answer in numbers, with the plan at the front of the plan buffer.
#[unsafe(no_mangle)]
pub extern "C" fn repgypsum_search(
    model: &[u8],
    width: u32,
    limit: u32,
    budget: u32,
    plan: &mut [u8],
    words: &mut [u64],
) -> Fields
    ensures { Searched 65536 model.now plan.old plan.new words.old words.new (settings width limit budget) result }
{
    repgypsum::repgypsum_search(model, width, limit, budget, plan, words)
}

// The search in the loading profile: no length is given, the model decides on it, and no answer is a length stop (`no_length_stop_loading` among
// the demands of `Searched`). A model outside the profile is refused with 15.
#[unsafe(no_mangle)]
pub extern "C" fn repgypsum_load(
    model: &[u8],
    width: u32,
    budget: u32,
    plan: &mut [u8],
    words: &mut [u64],
) -> Fields
    ensures { Searched 65536 model.now plan.old plan.new words.old words.new (loading_settings width budget) result }
{
    repgypsum::repgypsum_load(model, width, budget, plan, words)
}

// The search at the widths of a list that the caller lends, strictly rising: the first entry is the width of round 1, the last is W. A list that is
// empty, too long, not rising or out of range is refused with 16.
#[unsafe(no_mangle)]
pub extern "C" fn repgypsum_search_widths(
    model: &[u8],
    widths: &[u16],
    limit: u32,
    budget: u32,
    plan: &mut [u8],
    words: &mut [u64],
) -> Fields
    ensures { Searched 65536 model.now plan.old plan.new words.old words.new (list_settings widths.now limit budget) result }
{
    repgypsum::repgypsum_search_widths(model, widths, limit, budget, plan, words)
}

// The same in the loading profile.
#[unsafe(no_mangle)]
pub extern "C" fn repgypsum_load_widths(
    model: &[u8],
    widths: &[u16],
    budget: u32,
    plan: &mut [u8],
    words: &mut [u64],
) -> Fields
    ensures { Searched 65536 model.now plan.old plan.new words.old words.new (list_loading_settings widths.now budget) result }
{
    repgypsum::repgypsum_load_widths(model, widths, budget, plan, words)
}

// The plan check's answer number: 0 exactly for a plan of the model.
#[unsafe(no_mangle)]
pub extern "C" fn repgypsum_check_answer(model: &[u8], plan: &[u8]) -> u8
    ensures number { result ≡ answer_number (plans.check model.now plan.now) }
    ensures exact { (result ≡ 0) ↔ IsPlan model.now plan.now }
{
    repgypsum::repgypsum_check_answer(model, plan)
}

// The plan's cost at high figures, 0 where the answer number is not 0.
#[unsafe(no_mangle)]
pub extern "C" fn repgypsum_check_cost(model: &[u8], plan: &[u8]) -> u64
    ensures { result ≡ answer_cost (plans.check model.now plan.now) }
{
    repgypsum::repgypsum_check_cost(model, plan)
}

// The plan's cost at low figures, 0 where the answer number is not 0.
#[unsafe(no_mangle)]
pub extern "C" fn repgypsum_check_low(model: &[u8], plan: &[u8]) -> u64
    ensures { result ≡ answer_low (plans.check model.now plan.now) }
{
    repgypsum::repgypsum_check_low(model, plan)
}
