// Lists the script of standard input. The test runs it on document 01's worked script.
#![tactic(auto)]

fn main(rt: HostRuntime) {
    let _ = program::run(&rt);
}
