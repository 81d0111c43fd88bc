// The names of the records on standard input, which lines of $$$$ part.
#![tactic(auto)]

use std::io;

fn main(rt: HostRuntime) -> io::Result<()> {
    molnaming::run_records(&mut rt.stdin(), &mut rt.stdout())
}
