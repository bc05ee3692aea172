// How long a frame is, by its header.
ghost use Rattle.std.specs.Prelude.{◌≡◌};
ghost use Rattle.ash.specs.Size.{frame_size};

use crate::escapes::unescape;
use crate::header::{good_header, length_escaped};
use crate::{FRAME_MIN, PAYLOAD_MAX};

// The size, with header and check bytes, of a frame whose header has these bytes behind the flag, as
// they are sent; none where no frame is taken with that header.
#[tactic(auto, unfolding(crate::specs::Size::frame_size))]
pub fn frame_size(escape: u8, control: u8, length: u8) -> Option<usize>
    ensures { result ≡ frame_size escape control length }
{
    if !good_header(escape, control, length) {
        return None;
    }
    let payload = unescape(length_escaped(escape), length) as usize;
    if PAYLOAD_MAX < payload {
        return None;
    }
    Some(payload + FRAME_MIN)
}
