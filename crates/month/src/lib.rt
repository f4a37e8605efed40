// A month: names on standard input, one a line; the line of each; the closing line.

#![tactic(auto)]

pub mod list;

ghost use Rattle.std.specs.Prelude.{◌≡◌, IfOk};
ghost use Rattle.search_report.specs.Answers.{FieldsAre};
ghost use Rattle.month_figures.specs.Kept.{unread_fields};
ghost use Rattle.month.specs.Month.{answer_to, MonthOf};
ghost use Rattle.month.specs.Taking.{FileSays, LineAnswer};

use crate::list::{LineEnd, List};
use line::{Refused, Row};
use month_figures::{Figures, added, closing, none_yet, takes_more, unread};
use month_names::Line;
use program::{plan_model, read_file};
use search_report::answers::Fields;
use search_report::figures::fields;
use solver::buffers::plan_part;
use std::fs::File;
use std::io;
use std::io::Read;
use std::rt::Files;

// How the names that were taken end: a thousand are taken; the list is over; or it cannot be read.
#[derive(Clone, Copy)]
pub enum End {
    Full,
    Over,
    Unread,
}

// The figures of the names that were taken, and how these end.
#[derive(Clone, Copy)]
pub struct Month {
    figures: Figures,
    end: End,
}

// Writes the line of a name by which no file is read.
fn refuse(rt: &impl Print) -> io::Result<Fields>
    ensures { IfOk result (λ x. x ≡ unread_fields) }
{
    println!(rt; "{}", Refused(0))?;
    Ok(unread())
}

// Plans a model and writes its line.
fn plan_bytes(rt: &impl Print, model: &[u8]) -> io::Result<Fields>
    ensures { IfOk result (FieldsAre (answer_to model.now)) }
{
    let mut plan = [0u8; 64];
    let answer = plan_model(model, &mut plan);
    let steps = plan_part(&mut plan, answer.length);
    line::Line { answer, steps }.print(rt)?;
    Ok(fields(answer))
}

// Plans the model in an open file. A byte more than a model may have here tells one that is too long.
fn plan_file<R: Read>(rt: &impl Print, file: &mut R) -> io::Result<Fields>
    ensures { IfOk result FileSays }
{
    let mut input = [0u8; 16385];
    match read_file(file, &mut input) {
        Ok(n) => plan_bytes(rt, &input[..n]),
        Err(_) => refuse(rt),
    }
}

// Plans the model in the file of this name. A name that is not UTF-8 opens no file.
fn plan_named(rt: &(impl Files + Print), name: &[u8]) -> io::Result<Fields>
    ensures { IfOk result FileSays }
{
    let Ok(path) = str::from_utf8(name) else {
        return refuse(rt);
    };
    match File::open(rt, path) {
        Ok(mut file) => plan_file(rt, &mut file),
        Err(_) => refuse(rt),
    }
}

// What a line comes to.
fn answer_line(rt: &(impl Files + Print), line: &Line) -> io::Result<Fields>
    ensures { IfOk result (LineAnswer line.now) }
{
    match line.name() {
        Some(name) => plan_named(rt, name),
        None => refuse(rt),
    }
}

// Takes the names of the list, at most a thousand.
pub fn take_names(rt: &(impl Input + Files + Print)) -> io::Result<Month>
    ensures { IfOk result MonthOf }
{
    let mut list = List::new(rt.reader());
    let mut line = Line::started();
    let mut figures = none_yet();
    // the list ends by its end or by the thousandth name, and each turn may fail: no iterator of the list is plainer
    while takes_more(figures) {
        let Ok(line_end) = list.read_line(&mut line) else {
            return Ok(Month {
                figures,
                end: End::Unread,
            });
        };
        let is_last = matches!(line_end, LineEnd::Over);
        if is_last && line.is_empty() {
            return Ok(Month {
                figures,
                end: End::Over,
            });
        }
        let answer = answer_line(rt, &line)?;
        figures = added(figures, answer);
        if is_last {
            return Ok(Month {
                figures,
                end: End::Over,
            });
        }
    }
    Ok(Month {
        figures,
        end: End::Full,
    })
}

// The whole month: a line for each name, then the closing line, unless the list cannot be read.
pub fn run(rt: &(impl Input + Files + Print + Eprint)) -> io::Result<()> {
    let month = take_names(rt)?;
    match month.end {
        End::Unread => eprintln!(rt; "monthly: the list cannot be read"),
        End::Full | End::Over => {
            Row(&closing(month.figures)).print(rt)?;
            println!(rt)
        }
    }
}
