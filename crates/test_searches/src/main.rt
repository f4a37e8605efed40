// Plans the models of data/ at the settings among the arguments, and writes a line for each: the case's name, then the answer's line.
// A case is seven arguments: its name, the model's file, the widest beam or the word `widths` with a comma and a number for each entry of a
// list, the length limit or the word `loading` for the loading profile, the budget, and the plan bytes and words lent.

#![tactic(auto)]

ghost use Rattle.std.specs.Prelude.{◌≤◌, ◌<◌, ◌^◌, length, IfOk};

use line::{AllFields, Line};
use program::read_file;
use search_report::answers::{Answer, Refusal};
use solver::buffers::plan_part;
use solver::entry::search;
use solver::lists::{load_widths, search_widths};
use solver::load::load;
use std::env::FillError;
use std::fs::File;
use std::io;
use std::rt::{Env, Files};

const ARGUMENTS: usize = 7;

// The bytes that an argument may have.
const ROOM: usize = 4096;

// The number of these digits, as far as it is below 2^33.
fn number(digits: &[u8]) -> u64 {
    let mut n: u64 = 0;
    for digit in digits {
        if 429496729 < n {
            return n;
        }
        n = 10 * n + u64::from(*digit % 16);
    }
    n
}

// Puts argument i at the front of the buffer; answers how many bytes it has, 0 where it is missing or longer than the buffer.
fn argument_bytes(rt: &impl Env, i: usize, text: &mut [u8]) -> usize
    ensures { result ≤ length text.new }
{
    rt.arg(i, text).unwrap_or(0)
}

// The number that argument i says, at most 2^32 - 1.
fn argument(rt: &impl Env, i: usize) -> u32 {
    let mut text = [0u8; ROOM];
    let digits = argument_bytes(rt, i, &mut text);
    number(&text[..digits]).min(4294967295) as u32
}

// The number with one digit more, at most 65,535.
fn with_digit(n: u16, digit: u8) -> u16 {
    (10 * u32::from(n) + u32::from(digit % 16)).min(65535) as u16
}

// The number of these digits, at most 65,535.
fn entry(digits: &[u8]) -> u16 {
    let mut n: u16 = 0;
    for digit in digits {
        n = with_digit(n, *digit);
    }
    n
}

// The numbers behind the commas of a text, as far as there is room; answers how many there are.
fn entries(text: &[u8], widths: &mut [u16]) -> usize
    ensures { result ≤ length widths.new }
{
    let mut count: usize = 0;
    for digits in text.split(|byte| *byte == b',').skip(1) {
        if count == widths.len() {
            break;
        }
        widths[count] = entry(digits);
        count += 1;
    }
    count
}

// The list of widths that argument i says; answers how many there are.
fn read_widths(rt: &impl Env, i: usize, widths: &mut [u16]) -> usize
    ensures { result ≤ length widths.new }
{
    let mut text = [0u8; ROOM];
    let n = argument_bytes(rt, i, &mut text);
    entries(&text[..n], widths)
}

// Reads the file of this name; answers how many bytes came, 0 where it cannot be opened.
fn read_named<R: Files + Eprint>(rt: &R, path: &str, model: &mut [u8]) -> io::Result<usize>
    ensures { IfOk result (λ n. n ≤ length model.new) }
{
    match File::open(rt, path) {
        Ok(mut file) => match read_file(&mut file, model) {
            Ok(n) => Ok(n),
            Err(failed) => Ok(failed.count),
        },
        Err(error) => {
            eprintln!(rt; "{path}: {error}")?;
            Ok(0)
        }
    }
}

// Reads the file that argument i names; answers how many bytes it has.
fn read_model<R: Env + Files + Eprint>(rt: &R, i: usize, model: &mut [u8]) -> io::Result<usize>
    ensures { IfOk result (λ n. n ≤ length model.new) }
{
    let mut name = [0u8; ROOM];
    let n = argument_bytes(rt, i, &mut name);
    let Ok(path) = str::from_utf8(&name[..n]) else {
        eprintln!(rt; "argument {i}: no UTF-8")?;
        return Ok(0);
    };
    read_named(rt, path, model)
}

// Writes the name that argument i says.
fn write_name(rt: &(impl Env + Print), i: usize) -> io::Result<()> {
    let mut name = [0u8; ROOM];
    let n = argument_bytes(rt, i, &mut name);
    rt.write_all(&name[..n])?;
    print!(rt; ": ")
}

// Whether argument i begins with a letter: a word, and no number.
fn is_word(rt: &impl Env, i: usize) -> bool {
    let mut text = [0u8; ROOM];
    argument_bytes(rt, i, &mut text);
    text[0] > 57
}

// Whether there is an argument i.
fn is_there(rt: &impl Env, i: usize) -> bool {
    let mut text = [0u8; ROOM];
    !matches!(rt.arg(i, &mut text), Err(FillError::NotPresent))
}

// Writes an answer's line; a second one gives the fields and the path at a refusal by the state.
fn write_lines(rt: &impl Print, answer: Answer, plan: &mut [u8]) -> io::Result<()> {
    let steps = plan_part(plan, answer.length);
    Line { answer, steps }.print(rt)?;
    if let Err(Refusal::ByState(_)) = answer.outcome {
        print!(rt; "  at ")?;
        return AllFields { answer, steps }.print(rt);
    }
    Ok(())
}

// Plans a model with these buffers, and writes its lines.
fn write_search(
    rt: &impl Print,
    model: &[u8],
    width: u32,
    limit: u32,
    budget: u32,
    plan: &mut [u8],
    words: &mut [u64],
) -> io::Result<()> {
    let answer = search(model, width, limit, budget, plan, words);
    write_lines(rt, answer, plan)
}

// The same in the loading profile.
fn write_load(
    rt: &impl Print,
    model: &[u8],
    width: u32,
    budget: u32,
    plan: &mut [u8],
    words: &mut [u64],
) -> io::Result<()> {
    let answer = load(model, width, budget, plan, words);
    write_lines(rt, answer, plan)
}

// The same with these widths, which stand in the place of argument i + 2.
fn write_widths(
    rt: &(impl Env + Print),
    i: usize,
    model: &[u8],
    widths: &[u16],
    plan: &mut [u8],
    words: &mut [u64],
) -> io::Result<()>
    requires { i < 2 ^ 32 }
{
    let budget = argument(rt, i + 4);
    if is_word(rt, i + 3) {
        let loaded = load_widths(model, widths, budget, plan, words);
        return write_lines(rt, loaded, plan);
    }
    let answer = search_widths(model, widths, argument(rt, i + 3), budget, plan, words);
    write_lines(rt, answer, plan)
}

// Plans the case whose first argument is number i, with the list of widths that it says and these buffers.
fn write_listed(
    rt: &(impl Env + Print),
    i: usize,
    model: &[u8],
    plan: &mut [u8],
    words: &mut [u64],
) -> io::Result<()>
    requires { i < 2 ^ 32 }
{
    let mut widths = [0u16; 32];
    let n = read_widths(rt, i + 2, &mut widths);
    write_widths(rt, i, model, &widths[..n], plan, words)
}

// Plans the case whose first argument is number i, with these buffers.
fn write_with(
    rt: &(impl Env + Print),
    i: usize,
    model: &[u8],
    plan: &mut [u8],
    words: &mut [u64],
) -> io::Result<()>
    requires { i < 2 ^ 32 }
{
    if is_word(rt, i + 2) {
        return write_listed(rt, i, model, plan, words);
    }
    let width = argument(rt, i + 2);
    let budget = argument(rt, i + 4);
    if is_word(rt, i + 3) {
        return write_load(rt, model, width, budget, plan, words);
    }
    write_search(rt, model, width, argument(rt, i + 3), budget, plan, words)
}

// Plans the case whose first argument is number i, with the buffers that it says.
fn write_case(
    rt: &(impl Env + Print),
    i: usize,
    model: &[u8],
    plan: &mut [u8],
    words: &mut [u64],
) -> io::Result<()>
    requires { i < 2 ^ 32 }
{
    let bytes = plan.len().min(argument(rt, i + 5) as usize);
    let lent = words.len().min(argument(rt, i + 6) as usize);
    write_with(rt, i, model, &mut plan[..bytes], &mut words[..lent])
}

// Reads the model of the case whose first argument is number i, and plans it.
fn run_case(rt: &(impl Env + Files + Print + Eprint), i: usize, words: &mut [u64]) -> io::Result<()>
    requires { i < 2 ^ 32 }
{
    let mut model = [0u8; 65536];
    let mut plan = [165u8; 300];
    let n = read_model(rt, i + 1, &mut model)?;
    write_name(rt, i)?;
    write_case(rt, i, &model[..n], &mut plan, words)
}

// The longest model and one too long, of bytes 0.
fn write_longest(rt: &impl Print, words: &mut [u64]) -> io::Result<()> {
    let model = [0u8; 65537];
    let mut plan = [165u8; 300];
    print!(rt; "the-longest: ")?;
    write_search(rt, &model[..65536], 1, 1, 0, &mut plan, words)?;
    print!(rt; "too-long: ")?;
    write_search(rt, &model, 1, 1, 0, &mut plan, words)
}

fn main(rt: HostRuntime) -> io::Result<()> {
    let mut words = [0u64; 300000];
    for i in (1..65536).step_by(ARGUMENTS) {
        if !is_there(&rt, i) {
            break;
        }
        run_case(&rt, i, &mut words)?;
    }
    write_longest(&rt, &mut words)
}
