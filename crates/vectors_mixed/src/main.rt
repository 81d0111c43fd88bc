// The program `answers` on generated cards and texts, sound and faulty.
#![tactic(auto)]

use std::io;

fn main(rt: HostRuntime) -> io::Result<()> {
    answering::run(&mut rt.stdin(), &mut rt.stdout())
}
