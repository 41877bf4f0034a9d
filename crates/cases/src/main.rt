// Runs worked tables and published examples, and prints what the calls answered.
#![tactic(auto)]

mod leb;
mod offsets;
mod tables;
mod text;

fn main(rt: HostRuntime) -> std::io::Result<()> {
    leb::run(&rt)?;
    offsets::run(&rt)?;
    tables::run(&rt)?;
    offsets::run_big(&rt)
}
