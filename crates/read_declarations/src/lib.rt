// Reads a model's declarations: the cost rule, the variables, and the tables with their entries.

#![tactic(auto)]

pub mod commands;
pub mod tables;
pub mod variables;

// Sizes of document 01.
pub const MOST_VARIABLES: usize = 16;

const MOST_TABLES: usize = 32;

// A group of commands: the position behind it, and how many they are.
#[derive(Clone, Copy)]
pub struct Listed {
    pub end: usize,
    pub count: usize,
}

// A variable: the bytes of its operands, its kind and objects as a byte, its preference, the word of its start.
#[derive(Clone, Copy)]
pub struct Declaration {
    pub used: usize,
    pub kind: u8,
    pub preference: u8,
    pub start: u64,
}

// A table's rows and columns.
#[derive(Clone, Copy)]
pub struct Sides {
    pub rows: u8,
    pub columns: u8,
}
