// What a host calls, whole: the searches and the plan check on the bytes of a model, with the contracts that it may rely on. Nothing is required of
// a caller: whatever is wrong with the bytes, the settings or the buffers is told by a refusal. crates/repgypsum_c exports these functions to C.

#![tactic(auto)]

ghost use Rattle.std.specs.Prelude.{◌≡◌, ◌↔◌};
ghost use Rattle.model.specs.Check as plans;
ghost use Rattle.model.specs.Check.{IsPlan, answer_number, answer_cost, answer_low};
ghost use Rattle.solver.specs.Searches.{settings, loading_settings, list_settings, list_loading_settings, Searched};

use plan_check::check;
use search_report::answers::Fields;
use search_report::figures::fields;
use solver::entry::search;
use solver::lists::{load_widths, search_widths};
use solver::load::load;

// The search: its answer in numbers, with the plan at the front of the plan buffer.
pub fn repgypsum_search(
    model: &[u8],
    width: u32,
    limit: u32,
    budget: u32,
    plan: &mut [u8],
    words: &mut [u64],
) -> Fields
    ensures { Searched 65536 model.now plan.old plan.new words.old words.new (settings width limit budget) result }
{
    let answer = search(model, width, limit, budget, plan, words);
    fields(answer)
}

// The search in the loading profile: no length is given, the model decides on it, and no answer is a length stop (`no_length_stop_loading` among
// the demands of `Searched`). A model outside the profile is refused with 15.
pub fn repgypsum_load(
    model: &[u8],
    width: u32,
    budget: u32,
    plan: &mut [u8],
    words: &mut [u64],
) -> Fields
    ensures { Searched 65536 model.now plan.old plan.new words.old words.new (loading_settings width budget) result }
{
    let answer = load(model, width, budget, plan, words);
    fields(answer)
}

// The search at the widths of a list that the caller lends, strictly rising: the first entry is the width of round 1, the last is W. A list that is
// empty, too long, not rising or out of range is refused with 16.
pub fn repgypsum_search_widths(
    model: &[u8],
    widths: &[u16],
    limit: u32,
    budget: u32,
    plan: &mut [u8],
    words: &mut [u64],
) -> Fields
    ensures { Searched 65536 model.now plan.old plan.new words.old words.new (list_settings widths.now limit budget) result }
{
    let answer = search_widths(model, widths, limit, budget, plan, words);
    fields(answer)
}

// The same in the loading profile.
pub fn repgypsum_load_widths(
    model: &[u8],
    widths: &[u16],
    budget: u32,
    plan: &mut [u8],
    words: &mut [u64],
) -> Fields
    ensures { Searched 65536 model.now plan.old plan.new words.old words.new (list_loading_settings widths.now budget) result }
{
    let answer = load_widths(model, widths, budget, plan, words);
    fields(answer)
}

// The plan check's answer number: 0 exactly for a plan of the model.
pub fn repgypsum_check_answer(model: &[u8], plan: &[u8]) -> u8
    ensures number { result ≡ answer_number (plans.check model.now plan.now) }
    ensures exact { (result ≡ 0) ↔ IsPlan model.now plan.now }
{
    check(model, plan).answer
}

// The plan's cost at high figures, 0 where the answer number is not 0.
pub fn repgypsum_check_cost(model: &[u8], plan: &[u8]) -> u64
    ensures { result ≡ answer_cost (plans.check model.now plan.now) }
{
    let checked = check(model, plan);
    let cost = checked.cost;
    cost.high
}

// The plan's cost at low figures, 0 where the answer number is not 0.
pub fn repgypsum_check_low(model: &[u8], plan: &[u8]) -> u64
    ensures { result ≡ answer_low (plans.check model.now plan.now) }
{
    let checked = check(model, plan);
    let cost = checked.cost;
    cost.low
}
