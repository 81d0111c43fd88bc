// The name of the molfile on standard input.
#![tactic(auto)]

use std::io;

fn main(rt: HostRuntime) -> io::Result<()> {
    molnaming::run(&mut rt.stdin(), &mut rt.stdout())
}
