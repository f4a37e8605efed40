// Reads whole models: their commands in order, the refusal where they are not right, and the outline that says where each part stands.

#![tactic(auto)]

mod groups;

ghost use Rattle.std.specs.Prelude.{◌≡◌, ◌≤◌, length, OnOk};
ghost use Rattle.model.specs.Numbers.{most_model_bytes, most_variables};
ghost use Rattle.model.specs.Commands as commands;
ghost use Rattle.outline.specs.Outline.{outline_words, model_of, refusal_of, Outlines};
ghost use Rattle.read_model.specs.Groups.{PartsAs, ModelAs};
ghost use Rattle.read_model.specs.Refusals.{refusal_number};

use crate::groups::groups;
use laws::{byte_at, wide};
use outline::layout::{RULE, TABLE_COUNT, TABLES, TRANSITIONS, VARIABLE_COUNT};
use read_declarations::commands::cost_rule;
use read_declarations::tables::tables;
use read_declarations::variables::variables;
use read_forms::Names;
use read_forms::refusals::Refusal;

// The groups of commands behind the tables.
#[derive(Clone, Copy)]
pub enum Group {
    Transitions,
    BaseCases,
    Constraints,
    Bounds,
}

// The tables and what follows them, for the variables that the bytes declare: the position behind them.
fn behind_variables(
    model: &[u8],
    start: usize,
    kinds: &[u8],
    outline: &mut [u64],
) -> Result<usize, Refusal>
    requires { (length model.now ≤ most_model_bytes) × (length kinds.now ≤ most_variables) × (outline_words ≤ length outline.old) }
    ensures same { length outline.new ≡ length outline.old }
    ensures told { PartsAs kinds.now model.now start outline.old outline.new result }
{
    let mut rows = [0u8; 32];
    let mut columns = [0u8; 32];
    let listed = tables(
        model,
        start,
        &mut rows,
        &mut columns,
        &mut outline[TABLES..TRANSITIONS],
    )?;
    let n = listed.count;
    outline[TABLE_COUNT] = n as u64;
    groups(
        model,
        listed.end,
        Names {
            kinds,
            rows: &rows[..n],
            columns: &columns[..n],
        },
        outline,
    )
}

// The variables and what follows them: the position behind them.
fn behind_rule(model: &[u8], start: usize, outline: &mut [u64]) -> Result<usize, Refusal>
    requires { (length model.now ≤ most_model_bytes) × (outline_words ≤ length outline.old) }
    ensures same { length outline.new ≡ length outline.old }
    ensures told { ModelAs model.now start outline.new result }
{
    let mut kinds = [0u8; 16];
    let listed = variables(model, start, &mut kinds, &mut outline[0..TABLES])?;
    let n = listed.count;
    outline[VARIABLE_COUNT] = n as u64;
    behind_variables(model, listed.end, &kinds[..n], outline)
}

// Reads a model and puts its outline into words.
pub fn read_model(model: &[u8], outline: &mut [u64]) -> Result<(), Refusal>
    requires { (length model.now ≤ most_model_bytes) × (outline_words ≤ length outline.old) }
    ensures number { refusal_number result ≡ refusal_of (commands.model model.now) }
    ensures outlined { OnOk result (Outlines model.now outline.new (model_of model.now)) }
    ensures same { length outline.new ≡ length outline.old }
{
    let behind = cost_rule(model)?;
    behind_rule(model, behind, outline)?;
    outline[RULE] = wide(byte_at(model, 1));
    Ok(())
}
