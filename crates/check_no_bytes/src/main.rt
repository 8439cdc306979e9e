// The check program with a proof.hip of zero bytes: the empty proof, which is accepted in every table that reads.
#![tactic(auto)]

fn main(rt: HostRuntime) -> std::io::Result<()> {
    check_kit::run(&rt)
}
