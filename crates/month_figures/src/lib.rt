// The figures of a month, kept by value: an answer more, and the twelve figures of the closing line.

#![tactic(auto)]

ghost use Rattle.std.specs.Prelude.{◌≡◌, ltb};
ghost use Rattle.month_names.specs.Names.{most_names};
ghost use Rattle.month_figures.specs.Closing.{count_in, refused_in, gap_in, whole_of, remainder_of};
ghost use Rattle.month_figures.specs.Kept.{unread_fields, Tells, TellsUpTo, TellsCost, Shares, NoneYet, Addable, Added, Closes};

use search_report::answers::Fields;

// The figures so far.
#[derive(Clone, Copy)]
pub struct Figures {
    pub names: u64,
    pub cheapest: u64,
    pub planless: u64,
    pub width: u64,
    pub length: u64,
    pub budget: u64,
    pub contradicted: u64,
    pub refused: u64,
    pub sum: u64,
    pub gap: u64,
}

// What one answer adds to each: 1 or 0, its cost, its gap.
#[derive(Clone, Copy)]
struct Share {
    cheapest: u64,
    planless: u64,
    width: u64,
    length: u64,
    budget: u64,
    contradicted: u64,
    refused: u64,
    cost: u64,
    gap: u64,
}

// Before the first answer.
pub fn none_yet() -> Figures
    ensures { NoneYet result }
{
    Figures {
        names: 0,
        cheapest: 0,
        planless: 0,
        width: 0,
        length: 0,
        budget: 0,
        contradicted: 0,
        refused: 0,
        sum: 0,
        gap: 0,
    }
}

// The numbers of a name by which no file is read: "refused 0".
pub fn unread() -> Fields
    ensures { result ≡ unread_fields }
{
    Fields {
        refused: 1,
        verdict: 0,
        flag: 0,
        cost: 0,
        bound: 0,
        length: 0,
        expansions: 0,
        rounds: 0,
        width: 0,
        low: 0,
    }
}

// 1 where the answer has this verdict, else 0.
#[tactic(auto, using(crate::proofs::Seen::counted, crate::proofs::Seen::not_counted))]
fn count_in(x: Fields, verdict: u32) -> u64
    ensures { TellsUpTo 1 (count_in verdict) x result }
{
    if x.refused == 0 && x.verdict == verdict {
        1
    } else {
        0
    }
}

// 1 at a refusal, else 0.
#[tactic(auto, using(crate::proofs::Seen::refusal_counted, crate::proofs::Seen::refusal_not_counted))]
fn refused_in(x: Fields) -> u64
    ensures { TellsUpTo 1 refused_in x result }
{
    if x.refused == 0 { 0 } else { 1 }
}

// The cost at verdict 0, else 0.
#[tactic(auto, using(crate::proofs::Seen::cost_of_cheapest, crate::proofs::Seen::no_cost_of_other))]
fn cheapest_in(x: Fields) -> u64
    ensures { TellsCost x result }
{
    if x.refused == 0 && x.verdict == 0 {
        x.cost
    } else {
        0
    }
}

// What is open between cost and bound in a stopped run that has a plan, nothing where the bound is no less; else 0.
#[tactic(auto, using(crate::proofs::Seen::gap_of_stopped, crate::proofs::Seen::no_gap_of_other))]
fn gap_in(x: Fields) -> u64
    ensures { Tells gap_in x result }
{
    if x.refused == 0 && x.flag != 0 && 2 <= x.verdict && x.verdict <= 4 {
        x.cost.saturating_sub(x.bound)
    } else {
        0
    }
}

// What the answer adds to each figure.
fn share_of(x: Fields) -> Share
    ensures { Shares x result }
{
    Share {
        cheapest: count_in(x, 0),
        planless: count_in(x, 1),
        width: count_in(x, 2),
        length: count_in(x, 3),
        budget: count_in(x, 4),
        contradicted: count_in(x, 5),
        refused: refused_in(x),
        cost: cheapest_in(x),
        gap: gap_in(x),
    }
}

// The figures with an answer more.
pub fn added(figures: Figures, x: Fields) -> Figures
    requires { Addable figures x }
    ensures { Added figures x result }
{
    let one = share_of(x);
    Figures {
        names: figures.names + 1,
        cheapest: figures.cheapest + one.cheapest,
        planless: figures.planless + one.planless,
        width: figures.width + one.width,
        length: figures.length + one.length,
        budget: figures.budget + one.budget,
        contradicted: figures.contradicted + one.contradicted,
        refused: figures.refused + one.refused,
        sum: figures.sum + one.cost,
        gap: figures.gap.max(one.gap),
    }
}

// Whether a name more is taken.
pub fn takes_more(figures: Figures) -> bool
    ensures { result ≡ ltb figures.names most_names }
{
    figures.names < 1000
}

// The whole part of the mean. With `checked_div` and `unwrap_or` the proof did not close.
fn whole(sum: u64, count: u64) -> u64
    ensures { result ≡ whole_of sum count }
{
    if count == 0 { 0 } else { sum / count }
}

// The remainder of the mean. With `checked_rem` and `unwrap_or` the proof did not close.
fn remainder(sum: u64, count: u64) -> u64
    ensures { result ≡ remainder_of sum count }
{
    if count == 0 { 0 } else { sum % count }
}

// The figures of the closing line, in their order.
pub fn closing(figures: Figures) -> [u64; 12]
    ensures { Closes figures result }
{
    let whole_part = whole(figures.sum, figures.cheapest);
    let rest = remainder(figures.sum, figures.cheapest);
    [
        figures.names,
        figures.cheapest,
        figures.planless,
        figures.width,
        figures.length,
        figures.budget,
        figures.contradicted,
        figures.refused,
        figures.sum,
        whole_part,
        rest,
        figures.gap,
    ]
}
