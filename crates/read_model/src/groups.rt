// The groups behind the tables: transitions, 07, base cases, 0B, constraints, 0C, and bounds, 0D; and the end, 0E.

ghost use Rattle.std.specs.Prelude.{◌≡◌, ◌≤◌, length};
ghost use Rattle.model.specs.Numbers.{most_variables};
ghost use Rattle.model.specs.Readers.{up_to};
ghost use Rattle.read_forms.specs.Parts.{variables_in, tables_in};
ghost use Rattle.outline.specs.Outline.{outline_words};
ghost use Rattle.read_declarations.specs.Positions.{read_at, position_of};
ghost use Rattle.read_model.specs.Groups.{code_of, most_of, count_at, offsets_from, item_of, ItemsTold, GroupAs, GroupsAs, the_end};

use crate::Group;
use laws::byte_at;
use outline::layout::{
    BASE_CASE_COUNT, BASE_CASES, BOUND_COUNT, BOUNDS, CONSTRAINT_COUNT, CONSTRAINTS,
    TRANSITION_COUNT, TRANSITIONS,
};
use read_declarations::Listed;
use read_declarations::commands::command_at;
use read_forms::Names;
use read_forms::refusals::Refusal;
use read_transitions::{condition_at, conditions, number_at, transition};

// The command byte of a group's items.
fn code(group: Group) -> u8
    ensures { result ≡ code_of group }
{
    match group {
        Group::Transitions => 0x07,
        Group::BaseCases => 0x0b,
        Group::Constraints => 0x0c,
        Group::Bounds => 0x0d,
    }
}

// How many items a group may have.
fn most(group: Group) -> usize
    ensures { result ≡ most_of group }
{
    match group {
        Group::Transitions => 256,
        Group::BaseCases => 16,
        Group::Constraints => 32,
        Group::Bounds => 8,
    }
}

// The word of a group's count.
fn count_at(group: Group) -> usize
    ensures { result ≡ count_at group }
{
    match group {
        Group::Transitions => TRANSITION_COUNT,
        Group::BaseCases => BASE_CASE_COUNT,
        Group::Constraints => CONSTRAINT_COUNT,
        Group::Bounds => BOUND_COUNT,
    }
}

// The word of a group's first offset.
fn offsets_from(group: Group) -> usize
    ensures { result ≡ offsets_from group }
{
    match group {
        Group::Transitions => TRANSITIONS,
        Group::BaseCases => BASE_CASES,
        Group::Constraints => CONSTRAINTS,
        Group::Bounds => BOUNDS,
    }
}

// What follows the command byte of a group's item: the position behind it.
fn item(group: Group, model: &[u8], at: usize, names: Names) -> Result<usize, Refusal>
    requires { length names.kinds.now ≤ most_variables }
    ensures { result ≡ position_of (read_at (item_of (variables_in names.entry) (tables_in names.entry) group) at model.now) }
{
    match group {
        Group::Transitions => transition(model, at, names),
        Group::BaseCases => conditions(model, at, names),
        Group::Constraints => condition_at(model, at, names),
        Group::Bounds => number_at(model, at, names),
    }
}

// The items of a group from a position on, as many as there is room for their offsets.
fn items(
    group: Group,
    model: &[u8],
    start: usize,
    names: Names,
    offsets: &mut [u64],
) -> Result<Listed, Refusal>
    requires { length names.kinds.now ≤ most_variables }
    ensures { ItemsTold (item_of (variables_in names.entry) (tables_in names.entry) group) model.now offsets.new (read_at (up_to (length offsets.old) (code_of group) (item_of (variables_in names.entry) (tables_in names.entry) group)) start model.now) result }
{
    let c = code(group);
    let mut at = start;
    let mut n: usize = 0;
    while byte_at(model, at) == c {
        if n == offsets.len() {
            return Err(Refusal::OffLimits);
        }
        let behind = at + 1;
        at = item(group, model, behind, names)?;
        offsets[n] = behind as u64;
        n += 1;
    }
    if at < model.len() {
        Ok(Listed { end: at, count: n })
    } else {
        Err(Refusal::EndsEarly)
    }
}

// A group from a position on: its count and its offsets go into the outline. The position behind it.
fn group(
    group: Group,
    model: &[u8],
    start: usize,
    names: Names,
    outline: &mut [u64],
) -> Result<usize, Refusal>
    requires { (length names.kinds.now ≤ most_variables) × (outline_words ≤ length outline.old) }
    ensures { GroupAs (variables_in names.entry) (tables_in names.entry) group model.now start outline.old outline.new result }
{
    let from = offsets_from(group);
    let to = from + most(group);
    let listed = items(group, model, start, names, &mut outline[from..to])?;
    outline[count_at(group)] = listed.count as u64;
    Ok(listed.end)
}

// 0E, and nothing behind it.
fn finish(model: &[u8], at: usize) -> Result<usize, Refusal>
    ensures { result ≡ position_of (read_at the_end at model.now) }
{
    let behind = command_at(model, at, 0x0e)?;
    if behind == model.len() {
        Ok(behind)
    } else {
        Err(Refusal::BytesAfterEnd)
    }
}

// The four groups and the end, for the variables and tables that the bytes declare: the position behind them.
pub fn groups(
    model: &[u8],
    start: usize,
    names: Names,
    outline: &mut [u64],
) -> Result<usize, Refusal>
    requires { (length names.kinds.now ≤ most_variables) × (outline_words ≤ length outline.old) }
    ensures same { length outline.new ≡ length outline.old }
    ensures told { GroupsAs names.entry.kinds.now names.entry.rows.now names.entry.columns.now model.now start outline.old outline.new result }
{
    let p = group(Group::Transitions, model, start, names, outline)?;
    let q = group(Group::BaseCases, model, p, names, outline)?;
    let r = group(Group::Constraints, model, q, names, outline)?;
    let s = group(Group::Bounds, model, r, names, outline)?;
    finish(model, s)
}
