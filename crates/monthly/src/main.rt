// Plans each file that a list on standard input names, one a line, and prints the line of each, then the closing line.

#![tactic(auto)]

use std::io;

fn main(rt: HostRuntime) -> io::Result<()> {
    month::run(&rt)
}
