// Rule 7: what follows a round.

ghost use Rattle.std.specs.Prelude.{◌≡◌};
ghost use Rattle.search_runs.specs.Runs.{Judges};
ghost use Rattle.search_runs.specs.Widths.{nothing_left};

use search_visits::work::{Round, Verdict};

// No mark and none remaining: the round has left nothing out.
fn nothing_left(round: Round) -> bool
    ensures { result ≡ nothing_left round }
{
    !round.marks.width && !round.marks.length && round.count == 0
}

// Judges a round: its verdict, or none where another round follows. widest tells that its width is the widest.
pub fn judge(round: Round, widest: bool) -> Option<Verdict>
    ensures { Judges widest round result }
{
    if nothing_left(round) {
        return match round.progress.best {
            Some(_) => Some(Verdict::Cheapest),
            None => Some(Verdict::NoPlan),
        };
    }
    if round.improved {
        return None;
    }
    if round.marks.width {
        if widest {
            return Some(Verdict::WidthStop);
        }
        return None;
    }
    Some(Verdict::LengthStop)
}
