// The check program without table.kit, on a proof that needs no rule: zero bytes are a table with neither.
#![tactic(auto)]

fn main(rt: HostRuntime) -> std::io::Result<()> {
    check_kit::run(&rt)
}
