// The program on a script of the most events: 32,766 of them in 65,535 bytes, with a listing of 382,092 bytes.
#![tactic(auto)]

fn main(rt: HostRuntime) {
    let _ = program::run(&rt);
}
