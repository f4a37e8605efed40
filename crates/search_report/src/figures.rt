// The answer in numbers, for C.

ghost use Rattle.std.specs.Prelude.{◌≡◌, cond};
ghost use Rattle.search.specs.Answer.{verdict_number, outcome_number, is_refusal};
ghost use Rattle.search_visits.specs.Work.{verdict_of};
ghost use Rattle.search_report.specs.Answers.{refusal_of, outcome_of, LineOf, in_line, numbers_of};

use crate::answers::{Answer, Fields, Refusal};
use search_visits::work::Verdict;

// The number of a verdict.
pub fn verdict_number(verdict: Verdict) -> u32
    ensures { result ≡ verdict_number (verdict_of verdict) }
{
    match verdict {
        Verdict::Cheapest => 0,
        Verdict::NoPlan => 1,
        Verdict::WidthStop => 2,
        Verdict::LengthStop => 3,
        Verdict::BudgetSpent => 4,
        Verdict::Contradicted => 5,
    }
}

// The number of a refusal.
pub fn refusal_number(refusal: Refusal) -> u8
    ensures { result ≡ outcome_number (refusal_of refusal) }
{
    match refusal {
        Refusal::ByState(t) => t,
        Refusal::ByInput(t) => t,
    }
}

// The number of a verdict or of a refusal.
pub fn outcome_number(outcome: Result<Verdict, Refusal>) -> u32
    ensures { result ≡ outcome_number (outcome_of outcome) }
{
    match outcome {
        Ok(verdict) => verdict_number(verdict),
        Err(refusal) => refusal_number(refusal) as u32,
    }
}

// 1 at a refusal, 0 at a verdict.
fn refused_number(outcome: Result<Verdict, Refusal>) -> u32
    ensures { result ≡ cond (is_refusal (outcome_of outcome)) 1 0 }
{
    match outcome {
        Ok(_) => 0,
        Err(_) => 1,
    }
}

// 1 with a plan, 0 without one.
pub fn flag_number(flag: bool) -> u64
    ensures { result ≡ cond flag 1 0 }
{
    if flag { 1 } else { 0 }
}

// How many numbers there are in an answer's line.
pub const NUMBERS: usize = 9;

// The answer's numbers, in their order: the one list that the line and the C struct are made from.
pub fn numbers(answer: Answer) -> [u64; NUMBERS]
    ensures order { result ≡ in_line answer }
    ensures line { LineOf answer result }
{
    let verdict = outcome_number(answer.outcome);
    let flag = flag_number(answer.flag);
    [
        verdict as u64,
        flag,
        answer.cost.high,
        answer.bound.high,
        answer.length as u64,
        answer.tally.expansions,
        answer.tally.rounds,
        answer.tally.width,
        answer.cost.low,
    ]
}

// The answer as a C struct.
pub fn fields(answer: Answer) -> Fields
    ensures { result ≡ numbers_of answer }
{
    let refused = refused_number(answer.outcome);
    let n = numbers(answer);
    Fields {
        refused,
        verdict: outcome_number(answer.outcome),
        flag: n[1],
        cost: n[2],
        bound: n[3],
        length: n[4],
        expansions: n[5],
        rounds: n[6],
        width: n[7],
        low: n[8],
    }
}
