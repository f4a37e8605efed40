// The upper layer: the search. Definitions are in specs/.

#![tactic(auto)]

ghost use Rattle.std.specs.Prelude.{◌≡◌, leb};
ghost use Rattle.model.specs.Numbers.{most_steps};

// Whether a plan may have this many steps.
pub fn length_fits(steps: u64) -> bool
    ensures { result ≡ leb steps most_steps }
{
    steps <= 256
}
