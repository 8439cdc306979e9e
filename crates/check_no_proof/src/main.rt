// The check program without proof.hip: 2 at place 0 of file 2, once the table is read.
#![tactic(auto)]

fn main(rt: HostRuntime) -> std::io::Result<()> {
    check_kit::run(&rt)
}
