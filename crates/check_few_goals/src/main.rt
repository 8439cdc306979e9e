// The check program on goal 10 with term (id * id) * id: refused 35 at place 5.
#![tactic(auto)]

fn main(rt: HostRuntime) -> std::io::Result<()> {
    check_kit::run(&rt)
}
