#![tactic(auto)]
// The ASHv3 session, by request C-21 and source document 002: what an event answers, the whole lent
// buffers after it, and the session.
//
// The keys: `n` takes a fresh session, `m` marks the session as it is, `b` goes back to the marked one,
// `q` shows the session. The events: `r` is our reset, `t` the timeout, `s` sends data, `f` brings one
// frame. The first byte of an event is the length of the lent output, at most 160. Behind it stand, for
// `s`, the data, for `f` the length of the lent payload, at most 80, and the bytes of the frame. Before
// each event both buffers hold ee.
mod report;
mod steps;

use cases::line;
pub use steps::{Sessions, first};

pub fn run(rt: &impl Print, state: Sessions, line: &[u8], bytes: &[u8]) -> Sessions {
    match line::key(line) {
        b'n' => steps::begin(state),
        b'm' => steps::mark(state),
        b'b' => steps::go_back(state),
        b'q' => steps::show(rt, state, line),
        b'r' | b't' | b's' | b'f' => steps::run_event(rt, state, line, bytes),
        _ => {
            line::not_run(rt, line, b"no such key");
            state
        }
    }
}
