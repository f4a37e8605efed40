// Reads expressions: how many bytes the expression at the front of a byte string takes and which object count it has, or why it
// is refused. A number may contain conditions and a condition numbers: the readers call each other, with less depth left each time.

#![tactic(auto)]

ghost use Rattle.std.specs.Prelude.{◌≡◌};
ghost use Rattle.read_forms.specs.Parts.{variables_in, tables_in, part_at};
ghost use Rattle.read_forms.specs.Forms.{parts_at, in_table_at, choice_at, form_at};

use laws::byte_at;
use read_forms::refusals::Refusal;
use read_forms::{Due, Layout, Names, Part, Parts, bytes, layouts, sizes};

// The number at the front of e, nested at most `depth` deep.
pub fn number(e: &[u8], names: Names, depth: usize) -> Result<Part, Refusal>
    ensures { result ≡ part_at Due.Number (variables_in names.entry) (tables_in names.entry) depth e.now }
{
    part(Due::Number, e, names, depth)
}

// The condition at the front of e, nested at most `depth` deep.
pub fn condition(e: &[u8], names: Names, depth: usize) -> Result<Part, Refusal>
    ensures { result ≡ part_at Due.Condition (variables_in names.entry) (tables_in names.entry) depth e.now }
{
    part(Due::Condition, e, names, depth)
}

// The element at the front of e, nested at most `depth` deep.
pub fn element(e: &[u8], names: Names, depth: usize) -> Result<Part, Refusal>
    ensures { result ≡ part_at Due.Element (variables_in names.entry) (tables_in names.entry) depth e.now }
{
    part(Due::Element, e, names, depth)
}

// The set at the front of e, nested at most `depth` deep.
pub fn set(e: &[u8], names: Names, depth: usize) -> Result<Part, Refusal>
    ensures { result ≡ part_at Due.Set (variables_in names.entry) (tables_in names.entry) depth e.now }
{
    part(Due::Set, e, names, depth)
}

// The expression at the front of e, of the kind that is due.
#[cycle(choice_form_in_table_pair_part)]
#[tactic(auto, using(crate::proofs::Forms::no_depth_lem))]
pub fn part(due: Due, e: &[u8], names: Names, depth: usize) -> Result<Part, Refusal>
    ensures { result ≡ part_at due (variables_in names.entry) (tables_in names.entry) depth e.now }
{
    if e.is_empty() {
        return Err(Refusal::EndsEarly);
    }
    if depth == 0 {
        return Err(Refusal::TooDeep);
    }
    let layout = layouts::layout(due, e[0])?;
    let rest = form(layout, &e[1..], names, depth - 1)?;
    Ok(sizes::whole(due, rest))
}

// What stands behind the first byte; its parts may nest `depth` deep.
#[cycle(choice_form_in_table_pair_part)]
fn form(layout: Layout, e: &[u8], names: Names, depth: usize) -> Result<Part, Refusal>
    ensures { result ≡ form_at names.entry layout depth e.now }
{
    match layout {
        Layout::Integer => bytes::integer(e),
        Layout::Object => bytes::object(e),
        Layout::ObjectsAndMembers => bytes::objects_and_members(e),
        Layout::Variable(due) => bytes::variable(due, e, names.kinds),
        Layout::One(due) => part(due, e, names, depth),
        Layout::Two(first, second, fit) => {
            let parts = pair(first, second, e, names, depth)?;
            sizes::fitted(fit, parts)
        }
        Layout::InTable(first) => in_table(first, e, names, depth),
        Layout::Choice => choice(e, names, depth),
    }
}

// A table's number, the part that tells the rows and the element that tells the column.
#[cycle(choice_form_in_table_pair_part)]
fn in_table(first: Due, e: &[u8], names: Names, depth: usize) -> Result<Part, Refusal>
    ensures { result ≡ in_table_at names.entry first depth e.now }
{
    if e.is_empty() {
        return Err(Refusal::EndsEarly);
    }
    let t = e[0] as usize;
    if t < names.rows.len() {
        let parts = pair(first, Due::Element, &e[1..], names, depth)?;
        sizes::within(parts, names.rows[t], byte_at(names.columns, t))
    } else {
        Err(Refusal::Mismatch)
    }
}

// A condition and two numbers.
#[cycle(choice_form_in_table_pair_part)]
fn choice(e: &[u8], names: Names, depth: usize) -> Result<Part, Refusal>
    ensures { result ≡ choice_at names.entry depth e.now }
{
    let condition = part(Due::Condition, e, names, depth)?;
    let rest = &e[condition.used..];
    let numbers = pair(Due::Number, Due::Number, rest, names, depth)?;
    Ok(sizes::plus_parts(condition.used, numbers))
}

// One part behind the other.
#[cycle(choice_form_in_table_pair_part)]
fn pair(first: Due, second: Due, e: &[u8], names: Names, depth: usize) -> Result<Parts, Refusal>
    ensures { result ≡ parts_at names.entry first second depth e.now }
{
    let one = part(first, e, names, depth)?;
    let next = part(second, &e[one.used..], names, depth)?;
    Ok(sizes::behind(one, next))
}
