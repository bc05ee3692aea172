// Packets longer than any line: empty items of type 00, and a few bytes behind them.
use crate::packets;
use cases::line;

// The bytes before the items: opcode 03, id 0.
const HEAD: [u8; 4] = *b"\x01\x03\x00\x00";

// The longest packet.
const LONG_ROOM: usize = 0x100000;

// The bytes of a line are the kind that is looked for, how many bytes the packet has up to the end of
// the empty items (four bytes, high byte first), and what stands behind them.
const SIZE_END: usize = 5;

// What a look answers of such a packet, and what the functions that answer one thing alone do.
pub(crate) fn show(rt: &impl Print, line: &[u8], bytes: &[u8]) {
    let mut packet = empty_items();
    show_in(rt, line, bytes, &mut packet);
}

// A buffer full of empty items. The checker writes out an array where it is made, and this one is long:
// so it is made in a function of its own.
fn empty_items() -> [u8; LONG_ROOM] {
    [0u8; LONG_ROOM]
}

// The packet is made in `packet`, which is full of empty items.
fn show_in(rt: &impl Print, line: &[u8], bytes: &[u8], packet: &mut [u8]) {
    let Some(([kind, size @ ..], tail)) = bytes.split_at_checked(SIZE_END) else {
        line::not_run(rt, line, b"too few bytes");
        return;
    };
    let size = line::number(size) as usize;
    if size < HEAD.len() {
        line::not_run(rt, line, b"too short");
        return;
    }
    let Some(room) = packet.get_mut(size..) else {
        line::not_run(rt, line, b"too long");
        return;
    };
    if room.len() < tail.len() {
        line::not_run(rt, line, b"too long");
        return;
    }
    slices::put(room, 0, tail);
    slices::put(packet, 0, &HEAD);
    let whole = slices::first(packet, size + tail.len());
    packets::show_look(rt, line, whole, *kind);
    packets::show(rt, line, whole);
}
