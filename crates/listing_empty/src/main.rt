// The program on an empty input, which is a bad script and no failure.
#![tactic(auto)]

fn main(rt: HostRuntime) {
    let _ = program::run(&rt);
}
