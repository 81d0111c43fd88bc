// The name of the card on standard input.
#![tactic(auto)]

use std::io;

fn main(rt: HostRuntime) -> io::Result<()> {
    naming::run(&mut rt.stdin(), &mut rt.stdout())
}
