// The bench program: a script on standard input, its listing on standard output.
#![tactic(auto)]

// A read that fails ends the script, and of a write that fails nothing is told.
fn main(rt: HostRuntime) {
    let mut out = bench::page();
    let _ = bench_stream::play(&mut rt.stdin(), &mut rt.stdout(), &mut out);
}
