// Reads left.hex and right.hex, compares the models, and prints the strong and the weak verdict.
#![tactic(auto)]

use std::io;

fn main(rt: HostRuntime) -> io::Result<()> {
    checking::run(&rt)
}
