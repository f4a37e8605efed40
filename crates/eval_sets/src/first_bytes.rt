// The forms of expressions, by the first byte.

ghost use Rattle.std.specs.Prelude.{◌≡◌};
ghost use Rattle.eval_sets.specs.Forms as forms;

// 22 to 27
#[derive(Clone, Copy)]
pub enum Operation {
    Sum,
    Difference,
    Product,
    Quotient,
    Lesser,
    Greater,
}

// 20 to 2B
#[derive(Clone, Copy)]
pub enum NumberForm {
    Literal,
    Variable,
    Arithmetic(Operation),
    Entry,
    Size,
    Total,
    Choice,
    Other,
}

// 42 and 43
#[derive(Clone, Copy)]
pub enum Change {
    Add,
    Remove,
}

// 44 to 46
#[derive(Clone, Copy)]
pub enum Combination {
    Union,
    Intersection,
    Difference,
}

// 40 to 47
#[derive(Clone, Copy)]
pub enum SetForm {
    Literal,
    Variable,
    Changed(Change),
    Combined(Combination),
    Complement,
    Other,
}

// 50 to 52
#[derive(Clone, Copy)]
pub enum Relation {
    Equal,
    Less,
    AtMost,
}

// 50 to 59; a connective says which truth of its first part decides
#[derive(Clone, Copy)]
pub enum ConditionForm {
    Comparison(Relation),
    Same,
    Member,
    Empty,
    Subset,
    Negation,
    Connective(bool),
    Other,
}

pub fn number_form(b: u8) -> NumberForm
    ensures { result ≡ forms.number_form b }
{
    match b {
        0x20 => NumberForm::Literal,
        0x21 => NumberForm::Variable,
        0x22 => NumberForm::Arithmetic(Operation::Sum),
        0x23 => NumberForm::Arithmetic(Operation::Difference),
        0x24 => NumberForm::Arithmetic(Operation::Product),
        0x25 => NumberForm::Arithmetic(Operation::Quotient),
        0x26 => NumberForm::Arithmetic(Operation::Lesser),
        0x27 => NumberForm::Arithmetic(Operation::Greater),
        0x28 => NumberForm::Entry,
        0x29 => NumberForm::Size,
        0x2a => NumberForm::Total,
        0x2b => NumberForm::Choice,
        _ => NumberForm::Other,
    }
}

pub fn set_form(b: u8) -> SetForm
    ensures { result ≡ forms.set_form b }
{
    match b {
        0x40 => SetForm::Literal,
        0x41 => SetForm::Variable,
        0x42 => SetForm::Changed(Change::Add),
        0x43 => SetForm::Changed(Change::Remove),
        0x44 => SetForm::Combined(Combination::Union),
        0x45 => SetForm::Combined(Combination::Intersection),
        0x46 => SetForm::Combined(Combination::Difference),
        0x47 => SetForm::Complement,
        _ => SetForm::Other,
    }
}

pub fn condition_form(b: u8) -> ConditionForm
    ensures { result ≡ forms.condition_form b }
{
    match b {
        0x50 => ConditionForm::Comparison(Relation::Equal),
        0x51 => ConditionForm::Comparison(Relation::Less),
        0x52 => ConditionForm::Comparison(Relation::AtMost),
        0x53 => ConditionForm::Same,
        0x54 => ConditionForm::Member,
        0x55 => ConditionForm::Empty,
        0x56 => ConditionForm::Subset,
        0x57 => ConditionForm::Negation,
        0x58 => ConditionForm::Connective(false),
        0x59 => ConditionForm::Connective(true),
        _ => ConditionForm::Other,
    }
}
