// What the programs share: a file read to its end, and the search at their settings.

#![tactic(auto)]

ghost use Rattle.std.specs.Prelude.{◌≤◌, length, IfOk, IfErr};
ghost use Rattle.program.specs.Program.{Planned};

use search_report::answers::Answer;
use solver::entry::search_up_to;
use std::io::Read;

// A read that failed, and how many bytes had come before it.
#[derive(Clone, Copy, Debug)]
pub struct ReadFailed {
    pub count: usize,
}

// Reads until the buffer is full or the file ends; answers how many bytes came. No method of the library reads so without a heap.
pub fn read_file<R: Read>(file: &mut R, buffer: &mut [u8]) -> Result<usize, ReadFailed>
    ensures read { IfOk result (λ n. n ≤ length buffer.new) }
    ensures failed { IfErr result (λ e. e.count ≤ length buffer.new) }
{
    let mut at: usize = 0;
    while at < buffer.len() {
        match file.read(&mut buffer[at..]) {
            Ok(0) => break,
            Ok(n) => at += n,
            Err(_) => return Err(ReadFailed { count: at }),
        }
    }
    Ok(at)
}

// The search at the programs' settings; the plan is at the front of the plan buffer.
pub fn plan_model(model: &[u8], plan: &mut [u8]) -> Answer
    ensures { Planned model.now plan.old plan.new result }
{
    let mut words = [0u64; 2064];
    search_up_to(16384, model, 16, 64, 100000, plan, &mut words)
}
