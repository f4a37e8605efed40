// Checks the plans on standard input and writes a line for each: the answer number, the cost and the low cost. A case is the length
// of its model and of its plan, two bytes each, then the model and the plan.

#![tactic(auto)]

ghost use Rattle.std.specs.Prelude.{◌≤◌, ◌<◌, length, IfOk, IfSome};

use std::io;
use std::io::Read;

// Checks one plan and writes its line.
fn write_check(rt: &impl Print, model: &[u8], plan: &[u8]) -> io::Result<()> {
    let checked = plan_check::check(model, plan);
    println!(rt;
        "{} {} {}",
        checked.answer, checked.cost.high, checked.cost.low
    )
}

// A case, and what is behind it.
#[derive(Clone, Copy)]
struct Case<'a> {
    model: &'a [u8],
    plan: &'a [u8],
    rest: &'a [u8],
}

// The case at the front; none where there is no whole case.
fn first_case(cases: &[u8]) -> Option<Case<'_>>
    ensures { IfSome result (λ x. length x.rest.now < length cases.now) }
{
    let (lengths, behind) = cases.split_first_chunk::<4>()?;
    let [a, b, c, d] = *lengths;
    let (model, behind) = behind.split_at_checked(usize::from(u16::from_le_bytes([a, b])))?;
    let (plan, rest) = behind.split_at_checked(usize::from(u16::from_le_bytes([c, d])))?;
    Some(Case { model, plan, rest })
}

// Writes the lines of all cases.
fn write_all(rt: &impl Print, cases: &[u8]) -> io::Result<()> {
    let mut left = cases;
    while let Some(case) = first_case(left) {
        write_check(rt, case.model, case.plan)?;
        left = case.rest;
    }
    Ok(())
}

// Models of 65,536 and 65,537 bytes 0, the longest and one too long; and a plan of 257 steps.
fn write_longest(rt: &impl Print) -> io::Result<()> {
    let model = [0u8; 65537];
    let plan = [0u8; 257];
    write_check(rt, &model[..65536], &plan[..0])?;
    write_check(rt, &model, &plan[..0])?;
    write_check(rt, &model, &plan)?;
    write_check(rt, &model[..65536], &plan)
}

// Reads until the buffer is full or the input ends; answers how many bytes came. crates/program has the same loop, but stands on the search.
fn read_full<R: Read>(input: &mut R, buffer: &mut [u8]) -> io::Result<usize>
    ensures { IfOk result (λ n. n ≤ length buffer.new) }
{
    let mut at: usize = 0;
    while at < buffer.len() {
        let n = input.read(&mut buffer[at..])?;
        if n == 0 {
            break;
        }
        at += n;
    }
    Ok(at)
}

fn main(rt: HostRuntime) -> io::Result<()> {
    let mut input = [0u8; 65536];
    let n = read_full(&mut rt.reader(), &mut input)?;
    write_all(&rt, &input[..n])?;
    write_longest(&rt)
}
