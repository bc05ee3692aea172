// Items: the reader of a packet's items, one after the other, which keeps what is found of one wanted
// kind.
ghost use Rattle.std.specs.Prelude.{◌≡◌, ◌≤◌, length, drop};
ghost use Rattle.packet.specs.Items.{items_of};
ghost use Rattle.packet.specs.Packet.{head_length};
ghost use Rattle.packet.specs.ReaderSteps.{item_from, Countable, with_item, no_items, tally_of};

use crate::{EOF_KIND, HEAD_LENGTH};

// A type byte and a length byte stand in front of an item's value.
const ITEM_HEAD: usize = 2;

// An item of a packet: its kind, where in the packet its value starts, and the value's length. A place
// and a length, not a slice: the bytes stand in the caller's packet.
#[derive(Clone, Copy)]
pub struct Item {
    pub kind: u8,
    pub start: usize,
    pub length: usize,
}

// Some items: how many there are, how many of the wanted kind, the first of these, and the item right
// behind that.
#[derive(Clone, Copy)]
pub(crate) struct Survey {
    pub(crate) all: usize,
    pub(crate) count: usize,
    pub(crate) first: Option<Item>,
    pub(crate) behind: Option<Item>,
}

// Reads the items of a packet, which stand behind its first four bytes, to its end; none where they
// do not fill it.
pub(crate) fn read_items(s: &[u8], wanted: u8) -> Option<Survey>
    requires { head_length ≤ length s.now }
    ensures { result ≡ tally_of head_length wanted (items_of (drop head_length s.now)) }
{
    let mut survey = no_items();
    let mut at = HEAD_LENGTH;
    // A while, not an iterator: each item says by its length where the next one begins.
    while at < s.len() {
        let item = item_at(s, at)?;
        with_item(&mut survey, item, item.kind == wanted);
        at = item.start + item.length;
    }
    Some(survey)
}

// The item that the bytes from the place `at` on begin with, if they begin with a whole one. An EOF
// item is empty.
#[tactic(auto, unfolding(crate::specs::ReaderSteps::item_from, crate::specs::ReaderSteps::begins_with_item))]
fn item_at(s: &[u8], at: usize) -> Option<Item>
    requires { at ≤ length s.now }
    ensures { result ≡ item_from at (drop at s.now) }
{
    let [kind, length, value @ ..] = &s[at..] else {
        return None;
    };
    let length = *length as usize;
    if value.len() < length {
        return None;
    }
    if *kind == EOF_KIND && length != 0 {
        return None;
    }
    Some(Item {
        kind: *kind,
        start: at + ITEM_HEAD,
        length,
    })
}

fn no_items() -> Survey
    ensures { result ≡ no_items }
{
    Survey {
        all: 0,
        count: 0,
        first: None,
        behind: None,
    }
}

// Puts one item more behind them. `wanted`, that it is of the wanted kind, is no switch: what differs is
// one count and one item. The survey is lent, and each item that was found is put there once: a survey that
// was made anew for each item took up to twice the time.
fn with_item(survey: &mut Survey, item: Item, wanted: bool)
    requires { Countable survey.old }
    ensures { survey.new ≡ with_item survey.old item wanted }
{
    survey.all += 1;
    if survey.first.is_some() && survey.behind.is_none() {
        survey.behind = Some(item);
    }
    if wanted {
        survey.count += 1;
        if survey.first.is_none() {
            survey.first = Some(item);
        }
    }
}
