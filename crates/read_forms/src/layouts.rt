// The first byte of an expression: what stands behind it where a kind is due, or its refusal.

ghost use Rattle.std.specs.Prelude.{◌≡◌, ◌+◌, ◌<◌};
ghost use Rattle.model.specs.Expressions.{among};
ghost use Rattle.read_forms.specs.Layouts.{refusal_of, rows_of, layout_of};

use crate::refusals::Refusal;
use crate::{Due, Fit, Layout};

// Whether b is one of the n bytes from a on.
#[tactic(auto, unfolding(model::specs::Expressions::among))]
fn is_among(a: u8, n: u8, b: u8) -> bool
    requires { a + n < 256 }
    ensures { result ≡ among a n b }
{
    a <= b && b < a + n
}

// The refusal of a byte that begins no expression of the kind that is due: a mismatch if it begins another.
#[tactic(auto, unfolding(crate::specs::Layouts::refusal_of, model::specs::Expressions::begins_expression, model::specs::Expressions::among))]
fn refusal(b: u8) -> Refusal
    ensures { result ≡ refusal_of b }
{
    match b {
        0x20..=0x2b | 0x30..=0x31 | 0x40..=0x47 | 0x50..=0x59 => Refusal::Mismatch,
        _ => Refusal::NotDue,
    }
}

// What stands behind each byte that begins an expression, in the order of the bytes.
const LAYOUTS: [Layout; 32] = [
    Layout::Integer, // 0x20
    Layout::Variable(Due::Number), // 0x21
    Layout::Two(Due::Number, Due::Number, Fit::Any), // 0x22
    Layout::Two(Due::Number, Due::Number, Fit::Any), // 0x23
    Layout::Two(Due::Number, Due::Number, Fit::Any), // 0x24
    Layout::Two(Due::Number, Due::Number, Fit::Any), // 0x25
    Layout::Two(Due::Number, Due::Number, Fit::Any), // 0x26
    Layout::Two(Due::Number, Due::Number, Fit::Any), // 0x27
    Layout::InTable(Due::Element), // 0x28
    Layout::One(Due::Set), // 0x29
    Layout::InTable(Due::Set), // 0x2a
    Layout::Choice, // 0x2b
    Layout::Object, // 0x30
    Layout::Variable(Due::Element), // 0x31
    Layout::ObjectsAndMembers, // 0x40
    Layout::Variable(Due::Set), // 0x41
    Layout::Two(Due::Element, Due::Set, Fit::AtMost), // 0x42
    Layout::Two(Due::Element, Due::Set, Fit::AtMost), // 0x43
    Layout::Two(Due::Set, Due::Set, Fit::Equal), // 0x44
    Layout::Two(Due::Set, Due::Set, Fit::Equal), // 0x45
    Layout::Two(Due::Set, Due::Set, Fit::Equal), // 0x46
    Layout::One(Due::Set), // 0x47
    Layout::Two(Due::Number, Due::Number, Fit::Any), // 0x50
    Layout::Two(Due::Number, Due::Number, Fit::Any), // 0x51
    Layout::Two(Due::Number, Due::Number, Fit::Any), // 0x52
    Layout::Two(Due::Element, Due::Element, Fit::Any), // 0x53
    Layout::Two(Due::Element, Due::Set, Fit::AtMost), // 0x54
    Layout::One(Due::Set), // 0x55
    Layout::Two(Due::Set, Due::Set, Fit::Equal), // 0x56
    Layout::One(Due::Condition), // 0x57
    Layout::Two(Due::Condition, Due::Condition, Fit::Any), // 0x58
    Layout::Two(Due::Condition, Due::Condition, Fit::Any), // 0x59
];

// The bytes that begin an expression of this kind, the first and how many, and where their rows stand in the table.
#[derive(Clone, Copy)]
pub struct Rows {
    pub first: u8,
    pub count: u8,
    pub at: u8,
}

fn rows_of(due: Due) -> Rows
    ensures { result ≡ rows_of due }
{
    match due {
        Due::Number => Rows {
            first: 0x20,
            count: 12,
            at: 0,
        },
        Due::Element => Rows {
            first: 0x30,
            count: 2,
            at: 12,
        },
        Due::Set => Rows {
            first: 0x40,
            count: 8,
            at: 14,
        },
        Due::Condition => Rows {
            first: 0x50,
            count: 10,
            at: 22,
        },
    }
}

// What stands behind byte b where an expression of this kind is due, or the byte's refusal.
pub fn layout(due: Due, b: u8) -> Result<Layout, Refusal>
    ensures { result ≡ layout_of due b }
{
    let rows = rows_of(due);
    if is_among(rows.first, rows.count, b) {
        let k = rows.at + (b - rows.first);
        Ok(LAYOUTS[k as usize])
    } else {
        Err(refusal(b))
    }
}
