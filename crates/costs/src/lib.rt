// Costs in code: their order, and how the cost rule joins them. The struct is the definitions' own.

#![tactic(auto)]

ghost use Rattle.std.specs.Prelude.{◌≡◌, not};
ghost use Rattle.model.specs.Commands.{rule_of};
ghost use Rattle.model.specs.Costs.{at_most, hours as Costs·hours, fixed as Costs·fixed, combine as Costs·combine};
ghost use Rattle.costs.specs.Costs.{Joinable};

use model::Cost;

// Whether a cost is at most another: by hours, then by moves. No derived order is this one, since costs that differ in their low figures alone
// are at most each other.
#[tactic(auto, unfolding(model::specs::Costs::at_most))]
pub fn at_most(a: Cost, b: Cost) -> bool
    ensures { result ≡ at_most a b }
{
    a.high < b.high || (a.high == b.high && a.moves <= b.moves)
}

// Whether a cost is less than another.
pub fn less(a: Cost, b: Cost) -> bool
    ensures { result ≡ not (at_most b a) }
{
    !at_most(b, a)
}

// The cost of h hours, as a bound has it.
pub fn hours(h: u64) -> Cost
    ensures { result ≡ Costs·hours h }
{
    Cost {
        high: h,
        low: 0,
        moves: 0,
    }
}

// The cost of c hours at high and at low figures, without moves.
pub fn fixed(c: u64) -> Cost
    ensures { result ≡ Costs·fixed c }
{
    Cost {
        high: c,
        low: c,
        moves: 0,
    }
}

// Two costs joined by the rule with this number: 0 sum, 1 largest.
pub fn combine(rule: u64, a: Cost, b: Cost) -> Cost
    requires { Joinable a b }
    ensures { result ≡ Costs·combine (rule_of rule) a b }
{
    if rule == 0 {
        return Cost {
            high: a.high + b.high,
            low: a.low + b.low,
            moves: a.moves + b.moves,
        };
    }
    let larger = if at_most(a, b) { b } else { a };
    Cost {
        low: a.low.max(b.low),
        ..larger
    }
}
