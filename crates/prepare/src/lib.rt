// Reads a model and prepares it, in words behind its outline: guards that decide without an evaluation, the conjuncts of the
// constraints, what is compared and hashed of a variable, and where a table's entries stand.

#![tactic(auto)]

pub mod conjuncts;
pub mod guards;
pub mod masks;
pub mod places;
pub mod tests;
pub mod writing;

ghost use Rattle.std.specs.Prelude.{◌≡◌, ◌≤◌, length, OnOk};
ghost use Rattle.model.specs.Numbers.{most_model_bytes};
ghost use Rattle.model.specs.Commands as commands;
ghost use Rattle.outline.specs.Outline.{model_of, refusal_of};
ghost use Rattle.read_model.specs.Refusals.{refusal_number};
ghost use Rattle.prepare.specs.Layout.{prepared_words};
ghost use Rattle.prepare.specs.Prepared.{Prepared};
ghost use Rattle.prepare.specs.Promised.{Room, Ready};

use crate::conjuncts::conjuncts;
use crate::guards::guards;
use crate::masks::masks;
use crate::places::places;
use read_forms::refusals::Refusal;
use read_model::read_model;

// Prepares the model that is outlined; its outline stays.
fn prepare(model: &[u8], outline: &mut [u64])
    requires { Room model.now outline.old }
    ensures prepared { Prepared model.now outline.new (model_of model.now) }
    ensures room { Room model.now outline.new }
{
    masks(model, outline);
    places(model, outline);
    guards(model, outline);
    conjuncts(model, outline);
}

// Reads a model, outlines and prepares it.
pub fn read_and_prepare(model: &[u8], outline: &mut [u64]) -> Result<(), Refusal>
    requires { (length model.now ≤ most_model_bytes) × (prepared_words ≤ length outline.old) }
    ensures number { refusal_number result ≡ refusal_of (commands.model model.now) }
    ensures ready { OnOk result (Ready model.now outline.new) }
{
    read_model(model, outline)?;
    prepare(model, outline);
    Ok(())
}
