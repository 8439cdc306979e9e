// The check program where proof.hip is a folder, which opens and cannot be read: as if it had not been opened, and not a proof of zero bytes.
#![tactic(auto)]

fn main(rt: HostRuntime) -> std::io::Result<()> {
    check_kit::run(&rt)
}
