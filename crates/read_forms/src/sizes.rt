// The bytes and the object count of an expression, from those of its parts.

ghost use Rattle.std.specs.Prelude.{◌≡◌, ◌+◌, ◌<◌, ◌^◌};
ghost use Rattle.read_forms.specs.Forms as forms;

use crate::refusals::Refusal;
use crate::{Due, Fit, Part, Parts};

// A part and the one behind it.
pub fn behind(first: Part, second: Part) -> Parts
    requires { first.used + second.used < 2 ^ 64 }
    ensures { result ≡ forms.behind first second }
{
    Parts {
        used: first.used + second.used,
        first: first.count,
        second: second.count,
    }
}

// Two parts whose counts have to fit.
pub fn fitted(fit: Fit, parts: Parts) -> Result<Part, Refusal>
    ensures { result ≡ forms.fitted fit parts }
{
    let Parts {
        used,
        first,
        second,
    } = parts;
    match fit {
        Fit::Any => Ok(Part { used, count: 0 }),
        Fit::AtMost if first <= second => Ok(Part {
            used,
            count: second,
        }),
        Fit::Equal if first == second => Ok(Part { used, count: first }),
        _ => Err(Refusal::Mismatch),
    }
}

// Two parts within the sides of a table, whose number is one byte.
pub fn within(parts: Parts, rows: u8, columns: u8) -> Result<Part, Refusal>
    requires { 1 + parts.used < 2 ^ 64 }
    ensures { result ≡ forms.within rows columns parts }
{
    if parts.first <= rows && parts.second <= columns {
        Ok(Part {
            used: 1 + parts.used,
            count: 0,
        })
    } else {
        Err(Refusal::Mismatch)
    }
}

// A part of n bytes and two parts behind it.
pub fn plus_parts(n: usize, parts: Parts) -> Part
    requires { n + parts.used < 2 ^ 64 }
    ensures { result ≡ forms.plus_parts n parts }
{
    Part {
        used: n + parts.used,
        count: 0,
    }
}

// The object count of an expression of this kind: none of a number and of a condition.
fn count_for(due: Due, count: u8) -> u8
    ensures { result ≡ forms.count_for due count }
{
    match due {
        Due::Number | Due::Condition => 0,
        Due::Element | Due::Set => count,
    }
}

// What stands behind the first byte, with that byte.
pub fn whole(due: Due, rest: Part) -> Part
    requires { 1 + rest.used < 2 ^ 64 }
    ensures { result ≡ forms.whole due rest }
{
    Part {
        used: 1 + rest.used,
        count: count_for(due, rest.count),
    }
}
