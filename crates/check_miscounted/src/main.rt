// The check program on goal 10 with term id * id: refused 34 at place 11.
#![tactic(auto)]

fn main(rt: HostRuntime) -> std::io::Result<()> {
    check_kit::run(&rt)
}
