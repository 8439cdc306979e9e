// The check program, run by the gate on the first proof of document 01: it is accepted.
#![tactic(auto)]

fn main(rt: HostRuntime) -> std::io::Result<()> {
    check_kit::run(&rt)
}
