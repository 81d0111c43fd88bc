// The program `answers` on generated molfiles, sound and faulty.
#![tactic(auto)]

use std::io;

fn main(rt: HostRuntime) -> io::Result<()> {
    answering::run(&mut rt.stdin(), &mut rt.stdout())
}
