// The troubles of evaluation, of steps and of plans.

ghost use Rattle.std.specs.Prelude.{◌≡◌, ℕ};
ghost use Rattle.model.specs.Troubles.{PlanTrouble};
ghost use Rattle.eval_sets.specs.Troubles.{number_of, named};

// Why there is no value. Nothing: the bytes hold no such expression.
#[derive(Clone, Copy, Debug, PartialEq, Eq)]
pub enum Trouble {
    Nothing,
    OutOfRange,
    DivisorZero,
    NegativeCost,
    HighBelowLow,
    NotAPlan,
}

impl Trouble {
    // The number that docs/FORMAT.md gives the trouble, 0 for Nothing.
    pub fn number(self) -> u8
        ensures number { result ≡ number_of self }
        ensures kept { (t : ℕ) → PlanTrouble t → self ≡ named t → result ≡ t }
    {
        match self {
            Trouble::Nothing => 0,
            Trouble::OutOfRange => 11,
            Trouble::DivisorZero => 12,
            Trouble::NegativeCost => 13,
            Trouble::NotAPlan => 14,
            Trouble::HighBelowLow => 17,
        }
    }
}
