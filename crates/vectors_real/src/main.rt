// The program `answers` on real molecules.
#![tactic(auto)]

use std::io;

fn main(rt: HostRuntime) -> io::Result<()> {
    answering::run(&mut rt.stdin(), &mut rt.stdout())
}
