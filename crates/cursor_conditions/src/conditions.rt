// Conditions along the cursor: whether one holds, where that is told.

ghost use Rattle.std.specs.Prelude.{◌≡◌, true, ◌<◌};
ghost use Rattle.cursor.specs.Places.{Stands, Begins, FirstByte};
ghost use Rattle.cursor.specs.Told.{NumberTold, ConditionTold, TestTold};
ghost use Rattle.cursor.specs.Codes.{RelationTold, is_operation, is_relation};
ghost use Rattle.cursor_conditions.specs.Forms.{ScaledForm, CommonForm, MemberAndCommon};
ghost use Rattle.cursor_conditions.specs.Waiting.{is_connective, goes_on, Settled};

use cursor::numbers::{
    is_operation, literal, literal_at, operation, plus_entry, ranged, shifted, simple, variable_at,
};
use cursor::places::{behind, first_byte, stands};
use cursor::sets::near_set;
use outline::layout::{PREPARED_WORDS, STATE_WORDS};
use outline::word_at;
use quick::sets::{begins_element, object};
use words::arithmetic::product;
use words::literals::long;
use words::sets::{intersection, is_member, is_subset};

// The greatest word of connectives to which one more is put.
const MOST_WAITING: u64 = 4611686018427387903;

// 50 to 52 of two numbers.
fn related(b: u8, x: i64, y: i64) -> bool
    ensures { RelationTold b x y result }
{
    if b == 0x52 {
        return x <= y;
    }
    if b == 0x51 {
        return x < y;
    }
    x == y
}

// Whether this byte compares two numbers: 50 to 52.
#[tactic(auto, unfolding(cursor::specs::Codes::is_relation))]
fn is_relation(b: u8) -> bool
    ensures { result ≡ is_relation b }
{
    0x50 <= b && b < 0x53
}

// 50 to 52, a number variable and a literal at the cursor.
fn variable_first(
    b: u8,
    m: &&[u8],
    at: &mut usize,
    outline: &[u64; PREPARED_WORDS],
    state: &[u64; STATE_WORDS],
) -> Option<bool>
    requires { Begins m.now.now at.old b × (is_relation b ≡ true) }
    ensures { ConditionTold m.now.now outline.now state.now at.old result at.new }
{
    let p = *at;
    let e = *m;
    if stands(e, p, 8) && e[p + 1] == 0x21 && e[p + 3] == 0x20 {
        *at = p + 8;
        let x = variable_at(m, p + 1, outline, state);
        let y = literal_at(m, p + 3, outline, state);
        return Some(related(b, x, y));
    }
    None
}

// 50 to 52, a literal and a number variable at the cursor.
fn literal_first(
    b: u8,
    m: &&[u8],
    at: &mut usize,
    outline: &[u64; PREPARED_WORDS],
    state: &[u64; STATE_WORDS],
) -> Option<bool>
    requires { Begins m.now.now at.old b × (is_relation b ≡ true) }
    ensures { ConditionTold m.now.now outline.now state.now at.old result at.new }
{
    let p = *at;
    let e = *m;
    if stands(e, p, 8) && e[p + 1] == 0x20 && e[p + 6] == 0x21 {
        *at = p + 8;
        let x = literal_at(m, p + 1, outline, state);
        let y = variable_at(m, p + 6, outline, state);
        return Some(related(b, x, y));
    }
    None
}

// 50 to 52, a number variable with a literal added or taken off, and a literal at the cursor.
fn shifted_first(
    b: u8,
    m: &&[u8],
    at: &mut usize,
    outline: &[u64; PREPARED_WORDS],
    state: &[u64; STATE_WORDS],
) -> Option<bool>
    requires { Begins m.now.now at.old b × (is_relation b ≡ true) }
    ensures { ConditionTold m.now.now outline.now state.now at.old result at.new }
{
    *at += 1;
    let x = shifted(m, at, outline, state)?;
    let y = literal(m, at, outline, state)?;
    Some(related(b, x, y))
}

// 50 to 52, a number variable with a table's entry added, and a literal at the cursor.
fn plus_entry_first(
    b: u8,
    m: &&[u8],
    at: &mut usize,
    outline: &[u64; PREPARED_WORDS],
    state: &[u64; STATE_WORDS],
) -> Option<bool>
    requires { Begins m.now.now at.old b × (is_relation b ≡ true) }
    ensures { ConditionTold m.now.now outline.now state.now at.old result at.new }
{
    *at += 1;
    let x = plus_entry(m, at, outline, state)?;
    let y = literal(m, at, outline, state)?;
    Some(related(b, x, y))
}

// 50 to 52 at the cursor, of a literal and a number variable, or of a number variable and a literal. The variable stands as it is, or with a literal
// added or taken off, or with a table's entry added.
pub fn short_comparison(
    m: &&[u8],
    at: &mut usize,
    outline: &[u64; PREPARED_WORDS],
    state: &[u64; STATE_WORDS],
) -> Option<bool>
    ensures { ConditionTold m.now.now outline.now state.now at.old result at.new }
{
    let p = *at;
    let b = first_byte(*m, p);
    if is_relation(b) {
        let c = first_byte(*m, p + 1);
        if c == 0x20 {
            return literal_first(b, m, at, outline, state);
        }
        if c == 0x21 {
            return variable_first(b, m, at, outline, state);
        }
        if first_byte(*m, p + 4) == 0x28 {
            return plus_entry_first(b, m, at, outline, state);
        }
        return shifted_first(b, m, at, outline, state);
    }
    None
}

// Whether 52 20 a 24 20 b 21 v stands at a place: a literal is at most a number variable, scaled by another.
fn is_scaled(e: &[u8], p: usize) -> bool
    ensures { result ≡ true → ScaledForm e.now p }
{
    stands(e, p, 14)
        && e[p] == 0x52
        && e[p + 1] == 0x20
        && e[p + 6] == 0x24
        && e[p + 7] == 0x20
        && e[p + 12] == 0x21
}

// Such a comparison at the cursor.
pub fn scaled_comparison(
    m: &&[u8],
    at: &mut usize,
    outline: &[u64; PREPARED_WORDS],
    state: &[u64; STATE_WORDS],
) -> Option<bool>
    ensures { ConditionTold m.now.now outline.now state.now at.old result at.new }
{
    let p = *at;
    if is_scaled(*m, p) {
        *at = p + 14;
        let a = literal_at(m, p + 1, outline, state);
        let b = literal_at(m, p + 7, outline, state);
        let x = variable_at(m, p + 12, outline, state);
        let y = ranged(product(b, x))?;
        return Some(a <= y);
    }
    None
}

// 22 to 27 and two simple numbers at the cursor.
fn two_simple(
    b: u8,
    m: &&[u8],
    at: &mut usize,
    outline: &[u64; PREPARED_WORDS],
    state: &[u64; STATE_WORDS],
) -> Option<i64>
    requires { Begins m.now.now at.old b × (is_operation b ≡ true) }
    ensures { NumberTold m.now.now outline.now state.now at.old result at.new }
{
    *at += 1;
    let x = simple(m, at, outline, state)?;
    let y = simple(m, at, outline, state)?;
    operation(b, x, y)
}

// 22 to 27 and two simple numbers, or a simple number that is none, at the cursor.
fn deeper(
    m: &&[u8],
    at: &mut usize,
    outline: &[u64; PREPARED_WORDS],
    state: &[u64; STATE_WORDS],
) -> Option<i64>
    ensures { NumberTold m.now.now outline.now state.now at.old result at.new }
{
    let b = first_byte(*m, *at);
    if is_operation(b) {
        return two_simple(b, m, at, outline, state);
    }
    simple(m, at, outline, state)
}

// 50 to 52 and two simple numbers at the cursor.
fn comparison(
    b: u8,
    m: &&[u8],
    at: &mut usize,
    outline: &[u64; PREPARED_WORDS],
    state: &[u64; STATE_WORDS],
) -> Option<bool>
    requires { Begins m.now.now at.old b × (is_relation b ≡ true) }
    ensures { ConditionTold m.now.now outline.now state.now at.old result at.new }
{
    *at += 1;
    let x = simple(m, at, outline, state)?;
    let y = simple(m, at, outline, state)?;
    Some(related(b, x, y))
}

// 50 to 52 and two such numbers at the cursor.
fn deep_comparison(
    b: u8,
    m: &&[u8],
    at: &mut usize,
    outline: &[u64; PREPARED_WORDS],
    state: &[u64; STATE_WORDS],
) -> Option<bool>
    requires { Begins m.now.now at.old b × (is_relation b ≡ true) }
    ensures { ConditionTold m.now.now outline.now state.now at.old result at.new }
{
    *at += 1;
    let x = deeper(m, at, outline, state)?;
    let y = deeper(m, at, outline, state)?;
    Some(related(b, x, y))
}

// 53 and two elements at the cursor.
fn same(
    m: &&[u8],
    at: &mut usize,
    outline: &[u64; PREPARED_WORDS],
    state: &[u64; STATE_WORDS],
) -> Option<bool>
    requires { Begins m.now.now at.old 0x53 }
    ensures { ConditionTold m.now.now outline.now state.now at.old result at.new }
{
    let p = *at;
    let e = *m;
    if stands(e, p, 5) && begins_element(e[p + 1]) && begins_element(e[p + 3]) {
        *at = p + 5;
        let i = object(e[p + 1], e[p + 2], state);
        let j = object(e[p + 3], e[p + 4], state);
        return Some(i == j);
    }
    None
}

// 54, an element and 41 v at the cursor.
fn member(
    m: &&[u8],
    at: &mut usize,
    outline: &[u64; PREPARED_WORDS],
    state: &[u64; STATE_WORDS],
) -> Option<bool>
    requires { Begins m.now.now at.old 0x54 }
    ensures { ConditionTold m.now.now outline.now state.now at.old result at.new }
{
    let p = *at;
    let e = *m;
    if stands(e, p, 5) && e[p + 3] == 0x41 && begins_element(e[p + 1]) {
        *at = p + 5;
        let s = word_at(state, e[p + 4] as usize);
        return Some(is_member(object(e[p + 1], e[p + 2], state), s));
    }
    None
}

// 54, an element and a near set at the cursor.
fn member_near(
    m: &&[u8],
    at: &mut usize,
    outline: &[u64; PREPARED_WORDS],
    state: &[u64; STATE_WORDS],
) -> Option<bool>
    requires { Begins m.now.now at.old 0x54 }
    ensures { ConditionTold m.now.now outline.now state.now at.old result at.new }
{
    let p = *at;
    let e = *m;
    if stands(e, p, 3) && begins_element(e[p + 1]) {
        *at = p + 3;
        let s = near_set(m, at, outline, state);
        if *at == p + 3 {
            return None;
        }
        return Some(is_member(object(e[p + 1], e[p + 2], state), s));
    }
    None
}

// 54 at the cursor: of a set variable in place, else of a near set.
fn any_member(
    m: &&[u8],
    at: &mut usize,
    outline: &[u64; PREPARED_WORDS],
    state: &[u64; STATE_WORDS],
) -> Option<bool>
    requires { Begins m.now.now at.old 0x54 }
    ensures { ConditionTold m.now.now outline.now state.now at.old result at.new }
{
    let mut end = *at;
    if let Some(c) = member(m, &mut end, outline, state) {
        *at = end;
        return Some(c);
    }
    let mut far = *at;
    let c = member_near(m, &mut far, outline, state);
    *at = far;
    c
}

// 55 and a near set at the cursor.
fn empty(
    m: &&[u8],
    at: &mut usize,
    outline: &[u64; PREPARED_WORDS],
    state: &[u64; STATE_WORDS],
) -> Option<bool>
    requires { Begins m.now.now at.old 0x55 }
    ensures { ConditionTold m.now.now outline.now state.now at.old result at.new }
{
    let p = *at;
    *at = p + 1;
    let s = near_set(m, at, outline, state);
    if *at == p + 1 {
        return None;
    }
    Some(s == 0)
}

// 56 and two near sets at the cursor.
fn subset(
    m: &&[u8],
    at: &mut usize,
    outline: &[u64; PREPARED_WORDS],
    state: &[u64; STATE_WORDS],
) -> Option<bool>
    requires { Begins m.now.now at.old 0x56 }
    ensures { ConditionTold m.now.now outline.now state.now at.old result at.new }
{
    let p = *at;
    *at = p + 1;
    let s = near_set(m, at, outline, state);
    let q = *at;
    if q == p + 1 {
        return None;
    }
    let t = near_set(m, at, outline, state);
    if *at == q {
        return None;
    }
    Some(is_subset(s, t))
}

// 50 to 52 at the cursor: of a number variable and a literal in place, else of two simple numbers.
fn any_comparison(
    b: u8,
    m: &&[u8],
    at: &mut usize,
    outline: &[u64; PREPARED_WORDS],
    state: &[u64; STATE_WORDS],
) -> Option<bool>
    requires { Begins m.now.now at.old b × (is_relation b ≡ true) }
    ensures { ConditionTold m.now.now outline.now state.now at.old result at.new }
{
    let mut first = *at;
    if let Some(c) = variable_first(b, m, &mut first, outline, state) {
        *at = first;
        return Some(c);
    }
    let mut second = *at;
    if let Some(c) = literal_first(b, m, &mut second, outline, state) {
        *at = second;
        return Some(c);
    }
    let mut third = *at;
    if let Some(c) = comparison(b, m, &mut third, outline, state) {
        *at = third;
        return Some(c);
    }
    let mut far = *at;
    let c = deep_comparison(b, m, &mut far, outline, state);
    *at = far;
    c
}

// 55 45 40 n members 41 v at the cursor: none of these members is one of the set variable.
fn missing(
    m: &&[u8],
    at: &mut usize,
    outline: &[u64; PREPARED_WORDS],
    state: &[u64; STATE_WORDS],
) -> Option<bool>
    requires { Begins m.now.now at.old 0x55 }
    ensures { ConditionTold m.now.now outline.now state.now at.old result at.new }
{
    let p = *at;
    let e = *m;
    if stands(e, p, 14) && e[p + 1] == 0x45 && e[p + 2] == 0x40 && e[p + 12] == 0x41 {
        *at = p + 14;
        let s = long(&e[p + 4..]);
        let t = word_at(state, e[p + 13] as usize);
        return Some(intersection(s, t) == 0);
    }
    None
}

// 55 at the cursor: of a literal's members in a set variable in place, else of a near set.
fn any_empty(
    m: &&[u8],
    at: &mut usize,
    outline: &[u64; PREPARED_WORDS],
    state: &[u64; STATE_WORDS],
) -> Option<bool>
    requires { Begins m.now.now at.old 0x55 }
    ensures { ConditionTold m.now.now outline.now state.now at.old result at.new }
{
    let mut end = *at;
    if let Some(c) = missing(m, &mut end, outline, state) {
        *at = end;
        return Some(c);
    }
    let mut far = *at;
    let c = empty(m, &mut far, outline, state);
    *at = far;
    c
}

// Whether 57 55 45 40 n members 41 u stands at a place where fifteen bytes stand.
fn is_common(e: &[u8], p: usize) -> bool
    requires { Stands e.now p 15 }
    ensures { result ≡ true → CommonForm e.now p }
{
    e[p + 1] == 0x55 && e[p] == 0x57 && e[p + 2] == 0x45 && e[p + 3] == 0x40 && e[p + 13] == 0x41
}

// Whether 58 54 30 k 41 v 57 55 45 40 n members 41 u stands at a place: an object is a member of one set variable, and some of these members are
// members of another.
fn is_member_and_common(e: &[u8], p: usize) -> bool
    ensures { result ≡ true → MemberAndCommon e.now p }
{
    stands(e, p, 21)
        && is_common(e, p + 6)
        && e[p] == 0x58
        && e[p + 1] == 0x54
        && e[p + 2] == 0x30
        && e[p + 4] == 0x41
}

// Such a condition at the cursor.
pub fn member_and_common(
    m: &&[u8],
    at: &mut usize,
    outline: &[u64; PREPARED_WORDS],
    state: &[u64; STATE_WORDS],
) -> Option<bool>
    ensures { ConditionTold m.now.now outline.now state.now at.old result at.new }
{
    let p = *at;
    let e = *m;
    if is_member_and_common(e, p) {
        *at = p + 21;
        let s = word_at(state, e[p + 5] as usize);
        let t = word_at(state, e[p + 20] as usize);
        let u = long(&e[p + 11..]);
        let k = object(e[p + 2], e[p + 3], state);
        return Some(is_member(k, s) && intersection(u, t) != 0);
    }
    None
}

// A condition with no condition inside.
fn plain(
    b: u8,
    m: &&[u8],
    at: &mut usize,
    outline: &[u64; PREPARED_WORDS],
    state: &[u64; STATE_WORDS],
) -> Option<bool>
    requires { FirstByte m.now.now at.old b }
    ensures { ConditionTold m.now.now outline.now state.now at.old result at.new }
{
    if b == 0x54 {
        return any_member(m, at, outline, state);
    }
    if b == 0x55 {
        return any_empty(m, at, outline, state);
    }
    if b == 0x53 {
        return same(m, at, outline, state);
    }
    if b == 0x56 {
        let mut end = *at;
        let c = subset(m, &mut end, outline, state);
        *at = end;
        return c;
    }
    if is_relation(b) {
        return any_comparison(b, m, at, outline, state);
    }
    None
}

// Whether this byte turns a condition round or joins two: 57 to 59.
#[tactic(auto, unfolding(crate::specs::Waiting::is_connective))]
fn is_connective(b: u8) -> bool
    ensures { result ≡ is_connective b }
{
    0x57 <= b && b < 0x5a
}

// Whether behind a first part that holds or not, as c says, the second one decides, by the connective's code.
#[tactic(auto, unfolding(crate::specs::Waiting::goes_on))]
fn goes_on(o: u64, c: bool) -> bool
    ensures { result ≡ goes_on o c }
{
    if o == 1 { c } else { !c }
}

// Settles the connectives that wait, the last one first, where the part before the cursor has the value c: the value of the whole, or None where
// another part comes next.
fn settled(m: &&[u8], at: &mut usize, waiting: &mut u64, c: bool) -> Option<bool>
    requires { Stands m.now.now at.old 0 }
    ensures { Settled m.now.now waiting.old c at.old waiting.new result at.new }
{
    let mut holds = c;
    let mut w = *waiting;
    let mut q = *at;
    while 1 < w {
        let o = w % 4;
        w = w / 4;
        if o == 0 {
            holds = !holds;
        } else {
            if goes_on(o, holds) {
                *waiting = w;
                *at = q;
                return None;
            }
            q = behind(*m, q, 1);
        }
    }
    *at = q;
    Some(holds)
}

// Plain conditions under 57 to 59, whatever their nesting while no more than thirty of these wait.
pub fn whole(
    m: &&[u8],
    at: &mut usize,
    outline: &[u64; PREPARED_WORDS],
    state: &[u64; STATE_WORDS],
) -> Option<bool>
    ensures { ConditionTold m.now.now outline.now state.now at.old result at.new }
{
    let mut waiting: u64 = 1;
    let mut q = *at;
    loop {
        let b = first_byte(*m, q);
        if is_connective(b) {
            if MOST_WAITING < waiting {
                return None;
            }
            waiting = waiting * 4 + ((b - 0x57) as u64);
            q += 1;
        } else {
            let c = plain(b, m, &mut q, outline, state)?;
            if let Some(d) = settled(m, &mut q, &mut waiting, c) {
                *at = q;
                return Some(d);
            }
        }
    }
}

// Such conditions joined by 58, no further than to one that fails, where the cursor tells nothing.
pub fn test(
    m: &&[u8],
    at: &mut usize,
    outline: &[u64; PREPARED_WORDS],
    state: &[u64; STATE_WORDS],
) -> Option<bool>
    ensures { TestTold m.now.now outline.now state.now at.old result at.new }
{
    let mut due: usize = 1;
    while due != 0 {
        if first_byte(*m, *at) == 0x58 {
            *at += 1;
            due += 1;
        } else {
            let c = whole(m, at, outline, state)?;
            if !c {
                return Some(false);
            }
            due -= 1;
        }
    }
    Some(true)
}
