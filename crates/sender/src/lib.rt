#![tactic(auto)]
// The sender of our own frames on the module's UART link (document 02, C-13; source document 000,
// Error Handling): it holds one frame until the module has acknowledged it, sends it again at the
// first two timeouts, and drops and reports it at the third.
mod events;
mod state;

pub use events::{acknowledge, send, timeout};
pub use state::{Answer, Held, Outcome, Payload, Sender, fresh};
