// The answer of a run that is over, and its steps in the plan buffer.

ghost use Rattle.std.specs.Prelude.{◌≡◌, ◌++◌, ◌≤◌, length, take, drop};
ghost use Rattle.search_visits.specs.Work.{BestFits};
ghost use Rattle.search_report.specs.Answers.{Reportable, Reports};
ghost use Rattle.search_report.specs.Reported.{BoundIs, Decides, Refuses};

use crate::answers::{Answer, Refusal};
use costs::hours;
use model::Cost;
use search_paths::trace::trace;
use search_runs::Stop;
use search_visits::work::{Ending, Progress, Verdict};

// Copies the first n bytes.
fn copy_bytes(from: &[u8], n: usize, to: &mut [u8])
    requires { (n ≤ length from.now) × (n ≤ length to.old) }
    ensures { to.new ≡ take n from.now ++ drop n to.old }
{
    to[..n].copy_from_slice(&from[..n]);
}

// The bound at a verdict: low; the best plan's cost where it is the cheapest; 0 where there is no plan.
fn bound_at(verdict: Verdict, progress: Progress) -> Cost
    ensures { BoundIs verdict progress result }
{
    let low = progress.low;
    let nothing = hours(0);
    match verdict {
        Verdict::Cheapest => match progress.best {
            Some(found) => found.cost,
            None => nothing,
        },
        Verdict::NoPlan => nothing,
        Verdict::WidthStop => low,
        Verdict::LengthStop => low,
        Verdict::BudgetSpent => low,
        Verdict::Contradicted => low,
    }
}

// The answer at a verdict; the best plan, if there is one, is written to the front of the plan buffer.
fn decided(plan: &mut [u8], best: &[u8], verdict: Verdict, stop: Stop) -> Answer
    requires { BestFits (length best.now) stop.progress.best × BestFits (length plan.old) stop.progress.best }
    ensures { Decides best.now plan.old plan.new verdict stop result }
{
    let bound = bound_at(verdict, stop.progress);
    let tally = stop.progress.tally;
    match stop.progress.best {
        Some(found) => {
            copy_bytes(best, found.length, plan);
            Answer {
                outcome: Ok(verdict),
                flag: true,
                cost: found.cost,
                bound,
                length: found.length,
                tally,
            }
        }
        None => Answer {
            outcome: Ok(verdict),
            flag: false,
            cost: hours(0),
            bound,
            length: 0,
            tally,
        },
    }
}

// The answer at a refusal by the state, where a path of this cost and of n steps ends.
fn refused(number: u8, cost: Cost, n: usize, stop: Stop) -> Answer
    ensures { Refuses number cost n stop result }
{
    let low = stop.progress.low;
    Answer {
        outcome: Err(Refusal::ByState(number)),
        flag: false,
        cost,
        bound: low,
        length: n,
        tally: stop.progress.tally,
    }
}

// The answer of a run that is over; its steps are written to the front of the plan buffer. best: the bytes of the best plan.
pub fn report(plan: &mut [u8], words: &[u64], best: &[u8], limit: usize, stop: Stop) -> Answer
    requires { Reportable plan.old best.now limit stop }
    ensures { Reports words.now best.now plan.old plan.new stop result }
{
    let w = stop.progress.tally.width as usize;
    let k = stop.layer;
    match stop.ending {
        Ending::Decided(v) => decided(plan, best, v, stop),
        Ending::At(e, c, i) => {
            trace(words, w, k, i, plan);
            refused(e, c, k, stop)
        }
        Ending::Beyond(e, c, i, t) => {
            trace(words, w, k, i, plan);
            plan[k] = t as u8;
            refused(e, c, k + 1, stop)
        }
    }
}
