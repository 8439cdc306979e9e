// The check program on goal 10 with term 2: refused 20 at place 5.
#![tactic(auto)]

fn main(rt: HostRuntime) -> std::io::Result<()> {
    check_kit::run(&rt)
}
