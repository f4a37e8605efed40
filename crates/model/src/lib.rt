// The lower layer: a model's format, the meaning of its expressions, its steps and plans. Definitions are in specs/.

#![tactic(auto)]

ghost use Rattle.std.specs.Prelude.{◌≡◌, leb};
ghost use Rattle.model.specs.Numbers.{most_model_bytes};

// Whether a model may have this many bytes.
pub fn length_fits(bytes: usize) -> bool
    ensures { result ≡ leb bytes most_model_bytes }
{
    bytes <= 65536
}

// What steps and plans cost: hours at high figures, hours at low figures, cable moves.
#[derive(Clone, Copy)]
pub struct Cost {
    pub high: u64,
    pub low: u64,
    pub moves: u64,
}
