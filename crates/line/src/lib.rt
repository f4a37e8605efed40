// The line that is written for an answer: its fields, a colon and the plan; or "refused" and the number.

#![tactic(auto)]

use search_report::answers::Answer;
use search_report::figures::{numbers, refusal_number};
use std::{fmt, io};

// Numbers in a row, with one space before each but the first.
#[derive(Clone, Copy)]
pub struct Row<'a>(pub &'a [u64]);

impl Row<'_> {
    // Number by number: where one cannot be written, those before it have been.
    pub fn print(self, rt: &impl Print) -> io::Result<()> {
        for (i, number) in self.0.iter().enumerate() {
            if 0 < i {
                print!(rt; " ")?;
            }
            print!(rt; "{number}")?;
        }
        Ok(())
    }
}

// The line of a refusal, by its number.
#[derive(Clone, Copy)]
pub struct Refused(pub u8);

impl fmt::Display for Refused {
    fn fmt<W: fmt::Write>(&self, f: &mut fmt::Formatter<W>) -> fmt::Result {
        write!(f, "refused {}", self.0)
    }
}

// All fields of an answer, a colon and its steps, which `plan_part` of solver cuts out of the plan buffer.
#[derive(Clone, Copy)]
pub struct AllFields<'a> {
    pub answer: Answer,
    pub steps: &'a [u8],
}

impl AllFields<'_> {
    // Field by field and step by step, then the end of the line.
    pub fn print(self, rt: &impl Print) -> io::Result<()> {
        Row(&numbers(self.answer)).print(rt)?;
        print!(rt; " :")?;
        for step in self.steps {
            print!(rt; " {step}")?;
        }
        println!(rt)
    }
}

// The line of an answer with its steps.
#[derive(Clone, Copy)]
pub struct Line<'a> {
    pub answer: Answer,
    pub steps: &'a [u8],
}

impl Line<'_> {
    // The fields and the steps at a verdict, "refused" and the number at a refusal.
    pub fn print(self, rt: &impl Print) -> io::Result<()> {
        let Line { answer, steps } = self;
        match answer.outcome {
            Ok(_) => AllFields { answer, steps }.print(rt),
            Err(refusal) => println!(rt; "{}", Refused(refusal_number(refusal))),
        }
    }
}
