// The figures of words, by the names of the lower layer's definitions.

// Rows, columns and object counts are at most so many; a set's word has a bit for each object.
pub const MOST_OBJECTS: u64 = 64;

// The range's least number, and its end: one more than the greatest.
pub const RANGE_START: i64 = -2147483648;

pub const RANGE_END: i64 = 2147483648;

// How many numbers lie in the range.
pub const RANGE_SIZE: u64 = 4294967296;

// The end of the numbers of 32 bits, and the first of them that stands for a negative one.
pub const WORD_END: u64 = 4294967296;

pub const NEGATIVE_FROM: u64 = 2147483648;

// The objects of the lower half, and how many sets of them there are.
pub const HALF: u64 = 32;

pub const HALF_SETS: u64 = 4294967296;
