// Prints the discovery answer of the drive that the script of standard input leaves. The test runs it on document 01's worked script.
#![tactic(auto)]

fn main(rt: HostRuntime) {
    let _ = program::discover(&rt);
}
