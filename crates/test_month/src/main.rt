// The same as monthly, on a list of 1,001 names.

#![tactic(auto)]

use std::io;

fn main(rt: HostRuntime) -> io::Result<()> {
    month::run(&rt)
}
