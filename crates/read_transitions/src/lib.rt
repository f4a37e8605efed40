// Reads transitions: conditions, 08, costs, 09 and 10, and effects, 0A; and conditions and numbers at a position.

#![tactic(auto)]

ghost use Rattle.std.specs.Prelude.{◌≡◌, [], ◌≤◌, false, length, get_or, drop};
ghost use Rattle.model.specs.Numbers.{most_variables, most_nesting};
ghost use Rattle.model.specs.Readers.{optional};
ghost use Rattle.model.specs.Expressions as expressions;
ghost use Rattle.model.specs.Commands as commands;
ghost use Rattle.words.specs.Signature.{variable_of};
ghost use Rattle.read_forms.specs.Parts.{variables_in, tables_in};
ghost use Rattle.read_declarations.specs.Positions.{read_at, position_of};
ghost use Rattle.read_transitions.specs.Transitions.{count_fits, part_from, effects_behind, ChangedAs};

use laws::byte_at;
use read_declarations::MOST_VARIABLES;
use read_declarations::commands::command_at;
use read_expressions::part;
use read_forms::bytes::{due_for, objects};
use read_forms::refusals::Refusal;
use read_forms::{Due, Names};

// Sizes of document 01.
const MOST_CONDITIONS: usize = 16;

const MOST_NESTING: usize = 32;

// An expression at a position: the position behind it and its object count.
#[derive(Clone, Copy)]
pub struct Placed {
    pub end: usize,
    pub count: u8,
}

// The variable that an effect sets and the position behind it.
#[derive(Clone, Copy)]
pub struct Change {
    pub variable: usize,
    pub end: usize,
}

// The bytes from a position on; none behind the end.
fn suffix_at(model: &[u8], at: usize) -> &[u8]
    ensures { result.now ≡ drop at model.now }
{
    &model[at.min(model.len())..]
}

// The expression that is due at a position.
fn expression_at(due: Due, model: &[u8], at: usize, names: Names) -> Result<Placed, Refusal>
    ensures { result ≡ part_from (variables_in names.entry) (tables_in names.entry) due at model.now }
{
    let read = part(due, suffix_at(model, at), names, MOST_NESTING)?;
    Ok(Placed {
        end: at + read.used,
        count: read.count,
    })
}

// The position behind a number.
pub fn number_at(model: &[u8], at: usize, names: Names) -> Result<usize, Refusal>
    ensures { result ≡ position_of (read_at (expressions.number (variables_in names.entry) (tables_in names.entry) most_nesting) at model.now) }
{
    let number = expression_at(Due::Number, model, at, names)?;
    Ok(number.end)
}

// The position behind a condition.
pub fn condition_at(model: &[u8], at: usize, names: Names) -> Result<usize, Refusal>
    ensures { result ≡ position_of (read_at (expressions.condition (variables_in names.entry) (tables_in names.entry) most_nesting) at model.now) }
{
    let condition = expression_at(Due::Condition, model, at, names)?;
    Ok(condition.end)
}

// Any conditions, 08 each. The loop ends at another byte: no range gives the positions.
pub fn conditions(model: &[u8], start: usize, names: Names) -> Result<usize, Refusal>
    ensures { result ≡ position_of (read_at (commands.conditions (variables_in names.entry) (tables_in names.entry)) start model.now) }
{
    let mut at = start;
    let mut n: usize = 0;
    while byte_at(model, at) == 0x08 {
        if n == MOST_CONDITIONS {
            return Err(Refusal::OffLimits);
        }
        at = condition_at(model, at + 1, names)?;
        n += 1;
    }
    if at < model.len() {
        Ok(at)
    } else {
        Err(Refusal::EndsEarly)
    }
}

// Whether an expression's count fits a variable of this kind.
fn count_fits(kind: u8, count: u8) -> bool
    ensures { result ≡ count_fits (variable_of kind).kind (variable_of kind).objects count }
{
    match due_for(kind) {
        Due::Element => count <= objects(kind),
        Due::Set => count == objects(kind),
        Due::Number | Due::Condition => true,
    }
}

// The position behind the expression that sets a variable of this kind.
fn result_at(kind: u8, model: &[u8], at: usize, names: Names) -> Result<usize, Refusal>
    ensures { result ≡ position_of (read_at (commands.expression_for (variables_in names.entry) (tables_in names.entry) (variable_of kind).kind (variable_of kind).objects) at model.now) }
{
    let expression = expression_at(due_for(kind), model, at, names)?;
    if count_fits(kind, expression.count) {
        Ok(expression.end)
    } else {
        Err(Refusal::Mismatch)
    }
}

// Whether variable v is marked; none is behind the end.
fn is_marked(marks: &[bool], v: usize) -> bool
    ensures { result ≡ get_or marks.now v false }
{
    v < marks.len() && marks[v]
}

// 0A behind n effects that set the marked variables: a variable that has no mark yet, and an expression of its kind.
fn effect(
    model: &[u8],
    at: usize,
    n: usize,
    marks: &[bool],
    names: Names,
) -> Result<Change, Refusal>
    requires { (get_or model.now at 0 ≡ 0x0a) × (n ≤ most_variables) × (length names.kinds.now ≤ most_variables) }
    ensures { ChangedAs (variables_in names.entry) (tables_in names.entry) model.now at n marks.now result }
{
    if model.len() <= at + 1 {
        return Err(Refusal::EndsEarly);
    }
    let variable = model[at + 1] as usize;
    if is_marked(marks, variable) {
        return Err(Refusal::OffLimits);
    }
    if names.kinds.len() <= variable {
        return Err(Refusal::Mismatch);
    }
    if n == MOST_VARIABLES {
        return Err(Refusal::OffLimits);
    }
    let end = result_at(names.kinds[variable], model, at + 2, names)?;
    Ok(Change { variable, end })
}

// Any effects, one for a variable. The loop ends at another byte: no range gives the positions.
fn effects(model: &[u8], start: usize, names: Names) -> Result<usize, Refusal>
    requires { length names.kinds.now ≤ most_variables }
    ensures { result ≡ position_of (read_at (effects_behind (variables_in names.entry) (tables_in names.entry) most_variables []) start model.now) }
{
    let mut at = start;
    let mut n: usize = 0;
    let mut marks = [false; MOST_VARIABLES];
    while byte_at(model, at) == 0x0a {
        let change = effect(model, at, n, &marks, names)?;
        marks[change.variable] = true;
        at = change.end;
        n += 1;
    }
    if at < model.len() {
        Ok(at)
    } else {
        Err(Refusal::EndsEarly)
    }
}

// The position behind the high cost, 10 and a number, where there is one.
fn high_cost(model: &[u8], at: usize, names: Names) -> Result<usize, Refusal>
    ensures { result ≡ position_of (read_at (optional 0x10 (expressions.number (variables_in names.entry) (tables_in names.entry) most_nesting)) at model.now) }
{
    if byte_at(model, at) == 0x10 {
        return number_at(model, at + 1, names);
    }
    if at < model.len() {
        Ok(at)
    } else {
        Err(Refusal::EndsEarly)
    }
}

// What a step costs: 09 and a number, then the high cost.
fn costs(model: &[u8], at: usize, names: Names) -> Result<usize, Refusal>
    ensures { result ≡ position_of (read_at (commands.costs (variables_in names.entry) (tables_in names.entry)) at model.now) }
{
    let command = command_at(model, at, 0x09)?;
    let number = number_at(model, command, names)?;
    high_cost(model, number, names)
}

// Any conditions, the costs, any effects.
pub fn transition(model: &[u8], start: usize, names: Names) -> Result<usize, Refusal>
    requires { length names.kinds.now ≤ most_variables }
    ensures { result ≡ position_of (read_at (commands.transition (variables_in names.entry) (tables_in names.entry)) start model.now) }
{
    let conditioned = conditions(model, start, names)?;
    let costed = costs(model, conditioned, names)?;
    effects(model, costed, names)
}
