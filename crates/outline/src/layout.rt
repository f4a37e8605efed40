// Which word of the outline holds what, as specs/Outline has it.

// The words of a state, one for each variable that there may be.
pub const STATE_WORDS: usize = 16;

// The cost rule.
pub const RULE: usize = 0;

// How many there are.
pub const VARIABLE_COUNT: usize = 1;

pub const TABLE_COUNT: usize = 2;

pub const TRANSITION_COUNT: usize = 3;

pub const BASE_CASE_COUNT: usize = 4;

pub const CONSTRAINT_COUNT: usize = 5;

pub const BOUND_COUNT: usize = 6;

// Where the words of each begin.
pub const KINDS: usize = 16;

pub const PREFERENCES: usize = 32;

pub const STARTS: usize = 48;

// Words 64 to 79 are free.
pub const TABLES: usize = 80;

pub const TRANSITIONS: usize = 112;

pub const BASE_CASES: usize = 368;

pub const CONSTRAINTS: usize = 384;

pub const BOUNDS: usize = 416;

// Behind the outline stands what is prepared of a model, as specs/Layout of crate prepare has it: two words a variable, three a table,
// four a guard.
pub const MASKS: usize = BOUNDS + 8;

pub const PLACES: usize = MASKS + 32;

pub const GUARDS: usize = PLACES + 96;

pub const CONJUNCTS: usize = GUARDS + 1024;

pub const CONJUNCT_COUNT: usize = CONJUNCTS + 1024;

// All words of a model that was read and prepared.
pub const PREPARED_WORDS: usize = CONJUNCT_COUNT + 1;

// How many conjuncts there is room for.
pub const MOST_CONJUNCTS: usize = 256;
