// Replays the vector files of data/ against the engine: the gate compares what it prints with stdout.
#![tactic(auto)]

fn main(rt: HostRuntime) {
    replay::run(&rt);
}
