// The search in the loading profile: no length is given, the model decides on it.

ghost use Rattle.std.specs.Prelude.{◌≡◌, true, ◌≤◌, length};
ghost use Rattle.search.specs.Run.{rising};
ghost use Rattle.search_report.specs.Answers.{numbers_of};
ghost use Rattle.solver.specs.Searches.{Searched, SetSays, loading_settings, list_loading_settings};

use crate::entry::{lent_fits, refusal, search_model};
use beam_widths::{WIDTHS, built_in, widest};
use outline::layout::PREPARED_WORDS;
use prepare::read_and_prepare;
use profile::{in_profile, loading_length};
use search_report::answers::Answer;

// What follows the settings in the loading profile: the reading, whether the model is inside, what is lent, the run.
pub fn load_set(
    model: &[u8],
    widths: &[u16],
    budget: u32,
    plan: &mut [u8],
    words: &mut [u64],
) -> Answer
    requires { (length model.now ≤ 65536) × (rising widths.now ≡ true) }
    ensures { SetSays model.now plan.old plan.new words.old words.new (list_loading_settings widths.now budget) result }
{
    let mut outline = [0u64; PREPARED_WORDS];
    if let Err(refused) = read_and_prepare(model, &mut outline) {
        return refusal(refused.number());
    }
    if in_profile(model, &outline) {
        let limit = loading_length(model, &outline);
        if lent_fits(widest(widths), limit, plan.len(), words.len()) {
            return search_model(model, &outline, widths, limit, budget as u64, plan, words);
        }
        return refusal(3);
    }
    refusal(15)
}

// The search of a model of at most so many bytes in the loading profile. A model outside it is told, with 15, once it is read and before too
// little lent is; no answer is a length stop, which `demands` of the contract says.
pub fn load_up_to(
    most: usize,
    model: &[u8],
    width: u32,
    budget: u32,
    plan: &mut [u8],
    words: &mut [u64],
) -> Answer
    requires { most ≤ 65536 }
    ensures { Searched most model.now plan.old plan.new words.old words.new (loading_settings width budget) (numbers_of result) }
{
    if most < model.len() {
        return refusal(1);
    }
    let count = built_in(width);
    if 0 < count {
        let table = WIDTHS;
        return load_set(model, &table[..count], budget, plan, words);
    }
    refusal(2)
}

// The search in the loading profile: the answer, with the plan at the front of the plan buffer.
pub fn load(model: &[u8], width: u32, budget: u32, plan: &mut [u8], words: &mut [u64]) -> Answer
    ensures { Searched 65536 model.now plan.old plan.new words.old words.new (loading_settings width budget) (numbers_of result) }
{
    load_up_to(65536, model, width, budget, plan, words)
}
