// Runs the reference's corpus through every call: a case on standard input gives a line on standard output. `reference/FORMAT.md`
// has both. What the calls answer is proved where they are; nothing is claimed here but that the program is safe and ends.
#![tactic(auto)]

mod calls;
mod entry;
mod input;
mod output;

// More than the corpus has.
const CASES: u32 = 1000000;

fn main(rt: HostRuntime) -> std::io::Result<()> {
    let mut reader = rt.reader();
    for _ in 0..CASES {
        if !calls::run(&rt, &mut reader)? {
            break;
        }
    }
    Ok(())
}
