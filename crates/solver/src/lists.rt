// The searches with a list of widths in the place of W: 16, where the list does not rise, comes right after 2.

ghost use Rattle.search_report.specs.Answers.{numbers_of};
ghost use Rattle.solver.specs.Searches.{Searched, list_settings, list_loading_settings};

use crate::entry::{is_length, refusal, search_set};
use crate::load::load_set;
use beam_widths::rises;
use search_report::answers::Answer;

// The search at the widths of a list: the answer, with the plan at the front of the plan buffer.
pub fn search_widths(
    model: &[u8],
    widths: &[u16],
    limit: u32,
    budget: u32,
    plan: &mut [u8],
    words: &mut [u64],
) -> Answer
    ensures { Searched 65536 model.now plan.old plan.new words.old words.new (list_settings widths.now limit budget) (numbers_of result) }
{
    if 65536 < model.len() {
        return refusal(1);
    }
    if is_length(limit) {
        if rises(widths) {
            return search_set(model, widths, limit as usize, budget, plan, words);
        }
        return refusal(16);
    }
    refusal(2)
}

// The same in the loading profile, which chooses the length itself.
pub fn load_widths(
    model: &[u8],
    widths: &[u16],
    budget: u32,
    plan: &mut [u8],
    words: &mut [u64],
) -> Answer
    ensures { Searched 65536 model.now plan.old plan.new words.old words.new (list_loading_settings widths.now budget) (numbers_of result) }
{
    if 65536 < model.len() {
        return refusal(1);
    }
    if rises(widths) {
        return load_set(model, widths, budget, plan, words);
    }
    refusal(16)
}
