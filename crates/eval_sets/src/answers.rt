// What the evaluators answer: a value with the bytes that its expression takes, or the trouble.

ghost use Rattle.std.specs.Prelude.{◌≡◌};
ghost use Rattle.eval_sets.specs.Answers.{past_number, past_condition};
ghost use Rattle.eval_sets.specs.Bounds.{NumberRoom, ConditionRoom};

use crate::troubles::Trouble;

// A value, and the bytes that its expression takes.
#[derive(Clone, Copy)]
pub struct Told<T> {
    pub value: T,
    pub used: usize,
}

// A condition. It stays an enum of its own: a Result of a Told bool is half as large again, and evaluators of conditions were
// up to a third slower with it.
#[derive(Clone, Copy)]
pub enum ConditionValue {
    Holds(bool, usize),
    Trouble(Trouble),
}

// An element, below 64.
#[derive(Clone, Copy)]
pub struct ElementValue {
    pub object: u64,
    pub used: usize,
}

// A set: its members, how many objects it may have, and the bytes.
#[derive(Clone, Copy)]
pub struct SetValue {
    pub members: u64,
    pub objects: u64,
    pub used: usize,
}

// Two parts that are elements or sets, with the object count of the first set among them.
#[derive(Clone, Copy)]
pub struct Parts {
    pub first: u64,
    pub second: u64,
    pub objects: u64,
    pub used: usize,
}

// The answer behind k bytes.
pub fn number_past(k: usize, v: Result<Told<i64>, Trouble>) -> Result<Told<i64>, Trouble>
    requires { NumberRoom k v }
    ensures { result ≡ past_number k v }
{
    let x = v?;
    Ok(Told {
        value: x.value,
        used: k + x.used,
    })
}

pub fn condition_past(k: usize, v: ConditionValue) -> ConditionValue
    requires { ConditionRoom k v }
    ensures { result ≡ past_condition k v }
{
    match v {
        ConditionValue::Holds(b, n) => ConditionValue::Holds(b, k + n),
        ConditionValue::Trouble(t) => ConditionValue::Trouble(t),
    }
}
