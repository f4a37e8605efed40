// The forms of expressions: what stands behind each first byte, the fixed operands, and the sizes and object counts of parts.

#![tactic(auto)]

pub mod bytes;
pub mod layouts;
pub mod refusals;
pub mod sizes;

// The greatest object count.
pub const MOST_OBJECTS: u8 = 64;

// The kind of expression that is due.
#[derive(Clone, Copy, Debug, PartialEq, Eq)]
pub enum Due {
    Number,
    Condition,
    Element,
    Set,
}

// The declared names, as byte strings: a byte for each variable (0 a number, 1 to 64 an element of so many objects, 65 to 128 a set of
// 64 less), a row count and a column count for each table.
#[derive(Clone, Copy)]
pub struct Names<'m> {
    pub kinds: &'m [u8],
    pub rows: &'m [u8],
    pub columns: &'m [u8],
}

// The bytes that an expression takes and its object count, 0 of a number and of a condition.
#[derive(Clone, Copy)]
pub struct Part {
    pub used: usize,
    pub count: u8,
}

// The bytes that two parts take and the object count of each.
#[derive(Clone, Copy)]
pub struct Parts {
    pub used: usize,
    pub first: u8,
    pub second: u8,
}

// How the object counts of two parts have to fit: not at all, the first at most the second, equal.
#[derive(Clone, Copy)]
pub enum Fit {
    Any,
    AtMost,
    Equal,
}

// What stands behind the first byte of an expression: fixed operands, one part, two parts, a table's number and two parts, a
// condition and two numbers.
#[derive(Clone, Copy)]
pub enum Layout {
    Integer,
    Object,
    ObjectsAndMembers,
    Variable(Due),
    One(Due),
    Two(Due, Due, Fit),
    InTable(Due),
    Choice,
}
