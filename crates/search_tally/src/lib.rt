// The tally of a run: how many expansions and rounds it has begun, and its last width.

#![tactic(auto)]

ghost use Rattle.std.specs.Prelude.{◌≡◌, ◌+◌, ◌<◌, ◌^◌};
ghost use Rattle.search_tally.specs.Tally.{one_more, begun_at};

// Expansions, rounds begun, and the width of the last round.
#[derive(Clone, Copy)]
pub struct Tally {
    pub expansions: u64,
    pub rounds: u64,
    pub width: u64,
}

// An expansion counts from its start.
pub fn count_expansion(tally: &mut Tally)
    requires { tally.old.expansions + 1 < 2 ^ 64 }
    ensures { tally.new ≡ one_more tally.old }
{
    tally.expansions = tally.expansions + 1;
}

// A round of this width begins.
pub fn begin_round(tally: &mut Tally, width: u64)
    requires { tally.old.rounds + 1 < 2 ^ 64 }
    ensures { tally.new ≡ begun_at width tally.old }
{
    tally.rounds = tally.rounds + 1;
    tally.width = width;
}

// The tally with one expansion more.
pub fn counted(tally: Tally) -> Tally
    requires { tally.expansions + 1 < 2 ^ 64 }
    ensures { result ≡ one_more tally }
{
    let mut t = tally;
    count_expansion(&mut t);
    t
}

// The tally once a round of this width has begun.
pub fn begun(tally: Tally, width: u64) -> Tally
    requires { tally.rounds + 1 < 2 ^ 64 }
    ensures { result ≡ begun_at width tally }
{
    let mut t = tally;
    begin_round(&mut t, width);
    t
}
