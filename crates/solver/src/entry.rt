// The search: refusals by the input, then the run.

ghost use Rattle.std.specs.Prelude.{◌≡◌, ◌≤◌};
ghost use Rattle.search.specs.Run.{plain, form_fits, lent_fits, refused_by_input};
ghost use Rattle.steps.specs.InBytes.{Outlined, state_in, system_in, bound_in, target_in};
ghost use Rattle.steps.specs.Answers.{result_of};
ghost use Rattle.search_report.specs.Answers.{AnswerIs, numbers_of, outcome_of};
ghost use Rattle.solver.specs.Searches.{Searchable, Searched, Settled, SetSays, settings, list_settings, lent_of, SearchSays, entered_of, ended_at_target};

use crate::roots::write_root;
use beam_order::slots::SLOT_WORDS;
use beam_widths::{WIDTHS, built_in, widest, width_at};
use costs::hours;
use eval_sets::troubles::Trouble;
use outline::layout::{PREPARED_WORDS, STATE_WORDS};
use prepare::read_and_prepare;
use quick::sums::{SUM_WORDS, forget};
use search::length_fits;
use search_report::answers::{Answer, Refusal};
use search_report::report::report;
use search_runs::rounds;
use search_tally::{Tally, begun};
use search_visits::work::Verdict;
use steps::bounds::bound;
use steps::conditions::constraints_hold;
use steps::states::start;

// h of the target.
fn target_bound(
    model: &[u8],
    outline: &[u64; PREPARED_WORDS],
    target: &[u64; STATE_WORDS],
) -> Result<u64, Trouble>
    requires { Outlined model.now outline.now }
    ensures { result ≡ result_of (bound_in model.now (state_in model.now target.now)) }
{
    let mut sums = [0u64; SUM_WORDS];
    forget(&mut sums);
    bound(model, outline, target, &mut sums)
}

// Tries the target when round 1 has begun, its constraints, then its bounds: h, or none where a constraint fails; or trouble, by its number.
fn enter(
    model: &[u8],
    outline: &[u64; PREPARED_WORDS],
    target: &[u64; STATE_WORDS],
) -> Result<Option<u64>, u8>
    requires { Outlined model.now outline.now × (state_in model.now target.now ≡ target_in model.now) }
    ensures { result ≡ entered_of ((system_in model.now).admits (target_in model.now)) (bound_in model.now (target_in model.now)) }
{
    match constraints_hold(model, outline, target) {
        Ok(holds) => {
            if holds {
                return match target_bound(model, outline, target) {
                    Ok(h) => Ok(Some(h)),
                    Err(t) => Err(t.number()),
                };
            }
            Ok(None)
        }
        Err(t) => Err(t.number()),
    }
}

// The run of a model that was read, at the widths of a list.
pub fn search_model(
    model: &[u8],
    outline: &[u64; PREPARED_WORDS],
    widths: &[u16],
    limit: usize,
    budget: u64,
    plan: &mut [u8],
    words: &mut [u64],
) -> Answer
    requires { Searchable model.now outline.now words.old plan.old widths.now limit budget }
    ensures { SearchSays model.now plan.old plan.new widths.now limit budget result }
{
    let mut target = [0u64; STATE_WORDS];
    start(model, outline, &mut target);
    match enter(model, outline, &target) {
        Ok(Some(h)) => {
            let mut root = [0u64; SLOT_WORDS];
            write_root(&target, h, &mut root);
            let mut best = [0u8; 256];
            let stop = rounds(
                words, &mut best, model, outline, widths, limit, budget, &root,
            );
            report(plan, words, &best, limit, stop)
        }
        Ok(None) => ended_at_target(Ok(Verdict::NoPlan), width_at(widths, 0)),
        Err(t) => ended_at_target(Err(Refusal::ByState(t)), width_at(widths, 0)),
    }
}

// The answer of a run that ends at the target, in round 1 at this width, before anything is found.
fn ended_at_target(outcome: Result<Verdict, Refusal>, width: usize) -> Answer
    ensures { AnswerIs (ended_at_target width (outcome_of outcome)) result }
{
    let fresh = Tally {
        expansions: 0,
        rounds: 0,
        width: 0,
    };
    let tally = begun(fresh, width as u64);
    let nothing = hours(0);
    Answer {
        outcome,
        flag: false,
        cost: nothing,
        bound: nothing,
        length: 0,
        tally,
    }
}

// A refusal by the input: all other fields 0.
pub fn refusal(number: u8) -> Answer
    ensures { AnswerIs (refused_by_input number) result }
{
    let nothing = hours(0);
    Answer {
        outcome: Err(Refusal::ByInput(number)),
        flag: false,
        cost: nothing,
        bound: nothing,
        length: 0,
        tally: Tally {
            expansions: 0,
            rounds: 0,
            width: 0,
        },
    }
}

// Whether a length limit is within its range.
pub fn is_length(limit: u32) -> bool
    ensures { result ≡ form_fits (plain limit) }
{
    1 <= limit && length_fits(limit as u64)
}

// Whether the caller lends enough: plan bytes, and working words.
pub fn lent_fits(width: usize, limit: usize, bytes: usize, words: usize) -> bool
    requires { (width ≤ 4096) × (limit ≤ 256) }
    ensures { result ≡ lent_fits width limit (lent_of bytes words) }
{
    limit <= bytes && 64 * width + width * (limit + 1) <= words
}

// What follows the settings where the length is given: what is lent, the reading, the run.
pub fn search_set(
    model: &[u8],
    widths: &[u16],
    limit: usize,
    budget: u32,
    plan: &mut [u8],
    words: &mut [u64],
) -> Answer
    requires { Settled model.now widths.now limit }
    ensures { SetSays model.now plan.old plan.new words.old words.new (list_settings widths.now limit budget) result }
{
    if lent_fits(widest(widths), limit, plan.len(), words.len()) {
        let mut outline = [0u64; PREPARED_WORDS];
        return match read_and_prepare(model, &mut outline) {
            Ok(()) => search_model(model, &outline, widths, limit, budget as u64, plan, words),
            Err(refused) => refusal(refused.number()),
        };
    }
    refusal(3)
}

// The search of a model of at most so many bytes.
pub fn search_up_to(
    most: usize,
    model: &[u8],
    width: u32,
    limit: u32,
    budget: u32,
    plan: &mut [u8],
    words: &mut [u64],
) -> Answer
    requires { most ≤ 65536 }
    ensures { Searched most model.now plan.old plan.new words.old words.new (settings width limit budget) (numbers_of result) }
{
    if most < model.len() {
        return refusal(1);
    }
    if is_length(limit) {
        let count = built_in(width);
        if 0 < count {
            let table = WIDTHS;
            return search_set(model, &table[..count], limit as usize, budget, plan, words);
        }
        return refusal(2);
    }
    refusal(2)
}

// The search: the answer, with the plan at the front of the plan buffer.
pub fn search(
    model: &[u8],
    width: u32,
    limit: u32,
    budget: u32,
    plan: &mut [u8],
    words: &mut [u64],
) -> Answer
    ensures { Searched 65536 model.now plan.old plan.new words.old words.new (settings width limit budget) (numbers_of result) }
{
    search_up_to(65536, model, width, limit, budget, plan, words)
}
