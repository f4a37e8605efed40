// Fixed operands: a number, an object, members, a variable. Each is asked for whole before it is judged.

ghost use Rattle.std.specs.Prelude.{◌≡◌, ◌&&◌, suc, ◌^◌, ltb};
ghost use Rattle.model.specs.Readers as readers;
ghost use Rattle.model.specs.Expressions.{object_number, objects_and_members, is_count};
ghost use Rattle.words.specs.Signature.{variable_of};
ghost use Rattle.read_forms.specs.Parts.{no_count, part_of};
ghost use Rattle.read_forms.specs.Forms.{due_for, variable_at};

use crate::refusals::Refusal;
use crate::{Due, MOST_OBJECTS, Part};
use words::literals::long;
use words::sets::full;

// A number's four bytes.
pub fn integer(e: &[u8]) -> Result<Part, Refusal>
    ensures { result ≡ part_of no_count (readers.integer e.now) }
{
    if e.len() < 4 {
        return Err(Refusal::EndsEarly);
    }
    Ok(Part { used: 4, count: 0 })
}

// An object below 64; the least object count that has it.
pub fn object(e: &[u8]) -> Result<Part, Refusal>
    ensures { result ≡ part_of suc (object_number e.now) }
{
    if e.is_empty() {
        return Err(Refusal::EndsEarly);
    }
    let k = e[0];
    if k < MOST_OBJECTS {
        Ok(Part {
            used: 1,
            count: k + 1,
        })
    } else {
        Err(Refusal::OffLimits)
    }
}

// Whether n is an object count.
#[tactic(auto, unfolding(model::specs::Expressions::is_count, model::specs::Expressions::among))]
pub fn is_count(n: u8) -> bool
    ensures { result ≡ is_count n }
{
    n != 0 && n <= MOST_OBJECTS
}

// Whether n is an object count and every member is below it.
pub fn members_fit(n: u8, members: u64) -> bool
    ensures { result ≡ (is_count n && ltb members (2 ^ n)) }
{
    is_count(n) && members <= full(n as u64)
}

// An object count and the members, as bits.
pub fn objects_and_members(e: &[u8]) -> Result<Part, Refusal>
    ensures { result ≡ part_of (λ p. p.0) (objects_and_members e.now) }
{
    if e.len() < 9 {
        return Err(Refusal::EndsEarly); // before the count is judged
    }
    let n = e[0];
    if members_fit(n, long(&e[1..])) {
        Ok(Part { used: 9, count: n })
    } else {
        Err(Refusal::OffLimits)
    }
}

// The kind of a declared variable, as its byte tells it.
#[tactic(auto, unfolding(words::specs::Signature::variable_of))]
pub fn due_for(kind: u8) -> Due
    ensures { result ≡ due_for (variable_of kind).kind }
{
    if kind == 0 {
        return Due::Number;
    }
    if kind <= MOST_OBJECTS {
        Due::Element
    } else {
        Due::Set
    }
}

// A variable's object count, 0 of a number.
#[tactic(auto, unfolding(words::specs::Signature::variable_of))]
pub fn objects(kind: u8) -> u8
    ensures { result ≡ (variable_of kind).objects }
{
    if kind <= MOST_OBJECTS {
        kind
    } else {
        kind - MOST_OBJECTS
    }
}

// A declared variable of the kind that is due, with its object count.
pub fn variable(due: Due, e: &[u8], kinds: &[u8]) -> Result<Part, Refusal>
    ensures { result ≡ variable_at due kinds.now e.now }
{
    if e.is_empty() {
        return Err(Refusal::EndsEarly);
    }
    let v = e[0] as usize;
    if v < kinds.len() && due == due_for(kinds[v]) {
        Ok(Part {
            used: 1,
            count: objects(kinds[v]),
        })
    } else {
        Err(Refusal::Mismatch)
    }
}
