// The refusals by the input that a reader gives.

ghost use Rattle.std.specs.Prelude.{◌≡◌, ◌≤◌, ℕ};
ghost use Rattle.model.specs.Numbers.{ends_early, bytes_after_end};
ghost use Rattle.read_forms.specs.Refusals.{number_of, named};

// Why bytes are refused: they end early, a byte begins nothing that is due, a kind or a count does not fit, a value or one part more is
// off the limits, expressions are nested too deep, bytes stand behind the end.
#[derive(Clone, Copy, Debug, PartialEq, Eq)]
pub enum Refusal {
    EndsEarly,
    NotDue,
    Mismatch,
    OffLimits,
    TooDeep,
    BytesAfterEnd,
}

impl Refusal {
    // The refusal's number in the format.
    pub fn number(self) -> u8
        ensures number { result ≡ number_of self }
        ensures kept { (t : ℕ) → ends_early ≤ t → t ≤ bytes_after_end → self ≡ named t → result ≡ t }
    {
        match self {
            Refusal::EndsEarly => 4,
            Refusal::NotDue => 5,
            Refusal::Mismatch => 6,
            Refusal::OffLimits => 7,
            Refusal::TooDeep => 8,
            Refusal::BytesAfterEnd => 9,
        }
    }
}
