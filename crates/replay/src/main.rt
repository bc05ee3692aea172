#![tactic(auto)]
// Replays a recorded history (document 01, Program and C host): reads it from standard input, field
// by field, prints each reply as it comes, and at the end the rows and the counts.
mod print;
mod read;

use history::fields::Head;
use read::Fault;
use std::io::Read;

// The output tells of a broken history. What fails otherwise is passed over, and so is the history
// behind it.
fn main(rt: HostRuntime) {
    if let Err(Fault::Broken) = replay(&rt, &mut rt.stdin()) {
        let _ = print::broken(&rt);
    }
}

// A history has any length, but a proved loop has to end: this one has more turns than any history
// uses up.
fn replay(rt: &impl Print, input: &mut impl Read) -> Result<(), Fault> {
    let mut display = display::start(rows::fresh());
    let mut listing = true;
    for _ in 0..u64::MAX {
        let Some(head) = read::head(input, listing)? else {
            print::report(rt, display)?;
            return Ok(());
        };
        read::play(rt, input, &mut display, head)?;
        listing = listing && matches!(head, Head::Name(_));
    }
    Ok(())
}
