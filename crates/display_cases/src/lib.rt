#![tactic(auto)]
// The display on streams: the answer of each call, then the counts and the rows, by document 01: The
// receiver, The board, Refusal numbers for the order of refusals, and the cases that Known answers has
// run and compared.
//
// The keys: `s` a fresh display that watches h1 and h2, `f` feeds it a stream, `z` feeds it a number of
// zeros, `a` a number of acknowledgements with no answer printed, `t` ticks it, `b` calls it with
// buffers that are a byte too short, `c` prints its counts and rows, `k` cuts a stream at every place.
// By request C-13: `d` sends the payload behind the first two bytes, which are the length of the lent
// output, at most 800; `o` is a timeout with so long an output; `h` prints what the sender holds.
// A write that fails is passed over, and the comparison of the output finds it.
mod calls;
mod cuts;
mod feeding;
mod sending;

pub use calls::show_display;
use cases::{line, print};
use display::Display;
pub use feeding::fresh_display;

pub fn run(rt: &impl Print, display: Display, line: &[u8], bytes: &[u8]) -> Display {
    match line::key(line) {
        b's' => start(rt, line),
        b'f' => feeding::feed(rt, display, bytes),
        b'z' => feeding::feed_zeros(rt, display, line, line::number(bytes)),
        b'a' => feeding::feed_acknowledgements(rt, display, line::number(bytes)),
        b't' => display::tick(display),
        b'b' => calls::short_buffers(rt, display, bytes),
        b'c' => calls::show_display(rt, display),
        b'k' => cuts::compare(rt, display, bytes),
        b'd' | b'o' => sending::run_event(rt, display, line, bytes),
        b'h' => sending::show_sender(rt, display),
        _ => {
            line::not_run(rt, line, b"no such key");
            display
        }
    }
}

fn start(rt: &impl Print, line: &[u8]) -> Display {
    line::label(rt, line);
    print::text(rt, b"\n");
    fresh_display()
}
