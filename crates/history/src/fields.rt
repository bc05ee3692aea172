// The head of a tagged field: its tag and, high byte first, its length.
ghost use Rattle.std.specs.Prelude.{◌≡◌};
ghost use Rattle.slices.specs.HighFirst.{pair_of};
ghost use Rattle.history.specs.Fields.{head_of};

// The tags of fields behind the names. Numbers, not an enum: a field may have any tag.
pub const RECEIVED_TAG: u8 = 0x02;

pub const TICK_TAG: u8 = 0x03;

// How many bytes a field may have.
pub const FIELD_MAX: usize = 4096;

// What a field is by its head: a name or received bytes, of so many bytes, or a tick.
#[derive(Clone, Copy)]
pub enum Head {
    Name(usize),
    Received(usize),
    Tick,
}

// Judges a head; none where the field is broken. `listing` says that no field but names came before,
// so that a name may come. A bool, not an enum: it is data of the same call.
pub fn judge(tag: u8, high: u8, low: u8, listing: bool) -> Option<Head>
    ensures { result ≡ head_of tag (pair_of high low) listing }
{
    let size = usize::from(slices::pair(high, low));
    match tag {
        _ if FIELD_MAX < size => None,
        board::NAME_TAG if listing => Some(Head::Name(size)),
        RECEIVED_TAG => Some(Head::Received(size)),
        TICK_TAG if size == 0 => Some(Head::Tick),
        _ => None,
    }
}
