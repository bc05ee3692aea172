// The board's reading of a packet.
ghost use Rattle.std.specs.Prelude.{◌≡◌};
ghost use Rattle.packet.specs.ItemTypes.{eof_kind};
ghost use Rattle.packet.specs.Items.{count_of};
ghost use Rattle.packet.specs.Packet.{packet_items};
ghost use Rattle.packet.specs.Answers.{item_at};
ghost use Rattle.rows.specs.Names.{place_of};
ghost use Rattle.rows.specs.Rows.{row_names};
ghost use Rattle.board.specs.Reading.{read_board, refused_with, updated};
ghost use Rattle.board.specs.ReadingSteps.{task_of, task_of_items, read_update};

use packet::{EOF_KIND, Item, Look, NAME_KIND, look_for, valid_name, value_at};
use refusals::Refusal;
use rows::{Board, find, update};
use value::read_value;

// The opcode that the board reads. A number, not an enum: a packet may have any opcode.
const UPDATE: u8 = 0x03;

// What became of a packet that was read: an update of the row at a place or an end mark, each with the
// request id.
// Two cases, not an id beside an Option: an end mark is no update of a missing row.
#[derive(Clone, Copy)]
pub enum Done {
    Updated { row: usize, id: u16 },
    EndMark { id: u16 },
}

// The board after a packet, and what became of the packet.
#[derive(Clone, Copy)]
pub struct Reading {
    pub board: Board,
    pub answer: Result<Done, Refusal>,
}

// What a packet asks of the board, with its request id: an update comes with its Name and the item
// behind it, neither of them judged yet.
// Two cases for the same reason.
#[derive(Clone, Copy)]
enum Task {
    Finish {
        id: u16,
    },
    Apply {
        id: u16,
        name: Option<Item>,
        behind: Option<Item>,
    },
}

// The board after a packet. A refused packet and an end mark leave it as it was.
pub fn read(board: Board, packet: &[u8]) -> Reading
    ensures { result ≡ read_board board packet.now }
{
    match judge(packet) {
        Ok(Task::Finish { id }) => Reading {
            board,
            answer: Ok(Done::EndMark { id }),
        },
        Ok(Task::Apply { id, name, behind }) => read_update(board, id, packet, name, behind),
        Err(refusal) => refused(board, refusal),
    }
}

// Tests the packet, its opcode and how many Names it has. One look answers all three.
fn judge(packet: &[u8]) -> Result<Task, Refusal>
    ensures { result ≡ task_of packet.now }
{
    let names = look_for(packet, NAME_KIND)?;
    if names.head.opcode != UPDATE {
        return Err(Refusal::OtherOpcode);
    }
    judge_items(packet, names)
}

// What a packet asks by the Names that a look found in it. Only without a Name is there a second
// look, for an EOF item.
#[tactic(auto, unfolding(crate::specs::ReadingSteps::task_of_items))]
fn judge_items(packet: &[u8], names: Look) -> Result<Task, Refusal>
    ensures { result ≡ task_of_items names (count_of eof_kind (packet_items packet.now)) }
{
    let id = names.head.id;
    if names.count == 1 {
        return Ok(Task::Apply {
            id,
            name: names.first,
            behind: names.behind,
        });
    }
    if names.count == 0 && 0 < count_ends(packet) {
        return Ok(Task::Finish { id });
    }
    Err(Refusal::BadName)
}

// How many EOF items a packet has. The look itself, not `packet::count`: the looks at a packet stand in
// the board's own code, so that a test counts there how often its items are walked.
fn count_ends(packet: &[u8]) -> usize
    ensures { result ≡ count_of eof_kind (packet_items packet.now) }
{
    look_for(packet, EOF_KIND).map_or(0, |ends| ends.count)
}

// Reads the Name, then the value item right behind it, then the row.
fn read_update(
    board: Board,
    id: u16,
    packet: &[u8],
    name: Option<Item>,
    behind: Option<Item>,
) -> Reading
    ensures { result ≡ read_update board id (item_at packet.now name) (item_at packet.now behind) }
{
    let name_bytes = value_at(packet, name);
    if !valid_name(name_bytes) {
        return refused(board, Refusal::BadName);
    }
    let Some(item) = behind else {
        return refused(board, Refusal::BadValue); // nothing behind the Name
    };
    let Some(value) = read_value(item.kind, value_at(packet, behind)) else {
        return refused(board, Refusal::BadValue);
    };
    update_row(board, id, name_bytes, value)
}

// The row that has the name becomes current with the value.
#[tactic(auto, unfolding(crate::specs::Reading::updated))]
fn update_row(board: Board, id: u16, name: &[u8], value: i64) -> Reading
    ensures { result ≡ updated board id value (place_of name.now (row_names board)) }
{
    let Some(row) = find(board, name) else {
        return refused(board, Refusal::NotWatched);
    };
    Reading {
        board: update(board, row, value),
        answer: Ok(Done::Updated { row, id }),
    }
}

fn refused(board: Board, refusal: Refusal) -> Reading
    ensures { result ≡ refused_with board refusal }
{
    let answer = Err(refusal);
    Reading { board, answer }
}
