#![tactic(auto)]
// The packet functions, by document 01: Items and packets, and Refusal numbers for what is refused and
// in which order. The packets under the heading of source document 000 are that document's, without
// their transport bytes.
//
// The keys: `p` a packet, `k` a kind and a packet that is looked at for it, `e` a long packet of empty
// items, `n` a name, `l` a location; and the requests `g` property get of a name, `f` file request of a
// location, `o` the same from an offset, `d` fetched, `s` stop.
mod long;
mod packets;
mod requests;

use cases::{line, print};

pub fn run(rt: &impl Print, line: &[u8], bytes: &[u8]) {
    let key = line::key(line);
    match key {
        b'p' => packets::show(rt, line, bytes),
        b'k' => show_look(rt, line, bytes),
        b'e' => long::show(rt, line, bytes),
        b'n' => show_name(rt, bytes),
        b'l' => show_location(rt, bytes),
        b'g' | b'f' | b'o' | b'd' | b's' => requests::show(rt, line, bytes),
        _ => line::not_run(rt, line, b"no such key"),
    }
}

fn show_look(rt: &impl Print, line: &[u8], bytes: &[u8]) {
    let [kind, packet @ ..] = bytes else {
        line::not_run(rt, line, b"too few bytes");
        return;
    };
    packets::show_look(rt, line, packet, *kind);
}

fn show_name(rt: &impl Print, bytes: &[u8]) {
    print::text(rt, b"name ");
    print::text(rt, bytes);
    show_answer(rt, packet::valid_name(bytes));
}

fn show_location(rt: &impl Print, bytes: &[u8]) {
    print::number(rt, b"location of ", bytes.len() as u64);
    show_answer(rt, packet::valid_location(bytes));
}

fn show_answer(rt: &impl Print, answer: bool) {
    if answer {
        print::text(rt, b": yes\n");
    } else {
        print::text(rt, b": no\n");
    }
}
