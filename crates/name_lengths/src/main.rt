// The program `name` on inputs of 0, 4,096 and 4,097 bytes.
#![tactic(auto)]

use std::fs::File;
use std::io;

// A file that does not open is named on standard error, and the next one follows.
fn name_file(rt: &HostRuntime, path: &str) -> io::Result<()> {
    match File::open(rt, path) {
        Ok(mut file) => naming::run(&mut file, &mut rt.stdout()),
        Err(e) => eprintln!(rt; "{path}: {e}"),
    }
}

fn main(rt: HostRuntime) -> io::Result<()> {
    name_file(&rt, "empty")?;
    name_file(&rt, "longest")?;
    name_file(&rt, "too_long")
}
