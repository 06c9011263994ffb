// The program where its input cannot be read: it prints no listing, whatever the input was. What it reads is a file that is open for writing alone,
// so that each read fails as one of a closed standard input does.
#![tactic(auto)]

use std::fs::File;
use std::io;

fn main(rt: HostRuntime) -> io::Result<()> {
    let mut closed = File::options().write(true).open(&rt, "/dev/null")?;
    let _ = program::run_on(&rt, &mut closed);
    Ok(())
}
