// What stands at a position of the model's bytes: the position behind it.

ghost use Rattle.std.specs.Prelude.{◌≡◌};
ghost use Rattle.model.specs.Readers.{command};
ghost use Rattle.model.specs.Commands.{cost_rule};
ghost use Rattle.read_declarations.specs.Positions.{read_at, position_of};

use read_forms::refusals::Refusal;

// The command byte c.
pub fn command_at(model: &[u8], at: usize, c: u8) -> Result<usize, Refusal>
    ensures { result ≡ position_of (read_at (command c) at model.now) }
{
    if model.len() <= at {
        return Err(Refusal::EndsEarly);
    }
    if model[at] == c {
        Ok(at + 1)
    } else {
        Err(Refusal::NotDue)
    }
}

// 01 and the cost rule.
pub fn cost_rule(model: &[u8]) -> Result<usize, Refusal>
    ensures { result ≡ position_of (read_at cost_rule 0 model.now) }
{
    let at = command_at(model, 0, 0x01)?;
    if model.len() <= at {
        return Err(Refusal::EndsEarly);
    }
    if model[at] < 2 {
        Ok(at + 1)
    } else {
        Err(Refusal::OffLimits)
    }
}
