// Variables: 02, 03 and 04.

ghost use Rattle.std.specs.Prelude.{◌≡◌, ◌&&◌, ◌+◌, ◌<◌, length, set, ltb};
ghost use Rattle.model.specs.Expressions.{among, is_count};
ghost use Rattle.model.specs.Commands as commands;
ghost use Rattle.outline.specs.Outline.{kinds_from, preferences_from, starts_from};
ghost use Rattle.read_declarations.specs.Declarations.{DeclaredAs, VariablesAs};

use crate::{Declaration, Listed, MOST_VARIABLES};
use laws::{byte_at, wide};
use outline::layout::{KINDS, PREFERENCES, STARTS};
use read_forms::MOST_OBJECTS;
use read_forms::bytes::members_fit;
use read_forms::refusals::Refusal;
use words::arithmetic::biased;
use words::literals::{integer, long};

// Whether n is an object count, or a side of a table.
pub fn is_count(n: u8) -> bool
    ensures { result ≡ is_count n }
{
    1 <= n && n <= MOST_OBJECTS
}

// 02: the object count and the members at the start.
fn set_variable(e: &[u8]) -> Result<Declaration, Refusal>
    ensures { DeclaredAs (commands.set_variable e.now) result }
{
    if e.len() < 9 {
        return Err(Refusal::EndsEarly);
    }
    let n = e[0];
    let members = long(&e[1..]);
    if members_fit(n, members) {
        Ok(Declaration {
            used: 9,
            kind: 64 + n,
            preference: 0,
            start: members,
        })
    } else {
        Err(Refusal::OffLimits)
    }
}

// Whether an element may have n objects, preference p and start at object k.
fn element_fits(n: u8, p: u8, k: u8) -> bool
    ensures { result ≡ (is_count n && ltb p 3 && ltb k n) }
{
    is_count(n) && p < 3 && k < n
}

// 03: the object count, the preference and the object at the start.
fn element_variable(e: &[u8]) -> Result<Declaration, Refusal>
    ensures { DeclaredAs (commands.element_variable e.now) result }
{
    if e.len() < 3 {
        return Err(Refusal::EndsEarly);
    }
    let n = e[0];
    let p = e[1];
    let k = e[2];
    if element_fits(n, p, k) {
        Ok(Declaration {
            used: 3,
            kind: n,
            preference: p,
            start: wide(k),
        })
    } else {
        Err(Refusal::OffLimits)
    }
}

// 04: the preference and the number at the start.
fn number_variable(e: &[u8]) -> Result<Declaration, Refusal>
    ensures { DeclaredAs (commands.number_variable e.now) result }
{
    if e.len() < 5 {
        return Err(Refusal::EndsEarly);
    }
    let p = e[0];
    if p < 3 {
        Ok(Declaration {
            used: 5,
            kind: 0,
            preference: p,
            start: biased(integer(&e[1..])),
        })
    } else {
        Err(Refusal::OffLimits)
    }
}

// The variable that byte b declares, from its operands.
fn variable(b: u8, e: &[u8]) -> Result<Declaration, Refusal>
    ensures { DeclaredAs (commands.variable_of b e.now) result }
{
    match b {
        2 => set_variable(e),
        3 => element_variable(e),
        _ => number_variable(e),
    }
}

// Whether b declares a variable.
fn declares_variable(b: u8) -> bool
    ensures { result ≡ among 0x02 3 b }
{
    2 <= b && b < 5
}

// Puts variable v into its three words.
fn store(words: &mut [u64], v: usize, d: Declaration)
    requires { (length words.old ≡ 80) × (v < 16) }
    ensures { words.new ≡ set (set (set words.old (kinds_from + v) d.kind) (preferences_from + v) d.preference) (starts_from + v) d.start }
{
    words[KINDS + v] = wide(d.kind);
    words[PREFERENCES + v] = wide(d.preference);
    words[STARTS + v] = d.start;
}

// The variables from a position on, with their kinds as bytes and their words.
pub fn variables(
    model: &[u8],
    start: usize,
    kinds: &mut [u8],
    words: &mut [u64],
) -> Result<Listed, Refusal>
    requires { (length kinds.old ≡ 16) × (length words.old ≡ 80) }
    ensures { VariablesAs model.now start kinds.new words.new result }
{
    let mut at = start;
    let mut n: usize = 0;
    while declares_variable(byte_at(model, at)) {
        let behind = at + 1;
        let declaration = variable(byte_at(model, at), &model[behind..])?;
        if n == MOST_VARIABLES {
            return Err(Refusal::OffLimits);
        }
        kinds[n] = declaration.kind;
        store(words, n, declaration);
        at = behind + declaration.used;
        n += 1;
    }
    if at < model.len() {
        Ok(Listed { end: at, count: n })
    } else {
        Err(Refusal::EndsEarly)
    }
}
