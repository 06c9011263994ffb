// The program on 65,537 bytes, of which the first 65,536 are a script that reads to its end: it is listed as bad at place 0.
#![tactic(auto)]

fn main(rt: HostRuntime) {
    let _ = program::run(&rt);
}
