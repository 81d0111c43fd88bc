// For each line of standard input that asks, a line that answers.
#![tactic(auto)]

use std::io;

fn main(rt: HostRuntime) -> io::Result<()> {
    answering::run(&mut rt.stdin(), &mut rt.stdout())
}
