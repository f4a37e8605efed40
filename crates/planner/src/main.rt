// Plans the model on standard input and prints one line: the answer's fields, a colon and the plan; or "refused" and the number.

#![tactic(auto)]

use line::Line;
use program::{plan_model, read_file};
use solver::buffers::plan_part;
use std::io;

// Plans the model and writes its line.
fn write_plan(rt: &impl Print, model: &[u8]) -> io::Result<()> {
    let mut plan = [0u8; 64];
    let answer = plan_model(model, &mut plan);
    let steps = plan_part(&mut plan, answer.length);
    Line { answer, steps }.print(rt)
}

// A byte more than a model may have here tells one that is too long.
fn main(rt: HostRuntime) -> io::Result<()> {
    let mut input = [0u8; 16385];
    let Ok(n) = read_file(&mut rt.reader(), &mut input) else {
        return eprintln!(rt; "planner: the model cannot be read");
    };
    write_plan(&rt, &input[..n])
}
