// Packets as they are read.
use cases::{line, print};
use packet::{Head, Item};
use refusals::Refusal;

// A packet's opcode and id or the refusal, the number of its items and of its Names, the first Name,
// what stands behind it, and the first EOF, by a function each. All are asked of a refused packet too.
pub(crate) fn show(rt: &impl Print, line: &[u8], packet: &[u8]) {
    line::label(rt, line);
    show_reading(rt, packet::read_packet(packet));
    print::number(rt, b", items ", packet::count_all(packet) as u64);
    print::number(
        rt,
        b", names ",
        packet::count(packet, packet::NAME_KIND) as u64,
    );
    show_places(rt, packet);
}

// What one look at a packet for a kind answers. Of a refused packet it shows that it has no items.
pub(crate) fn show_look(rt: &impl Print, line: &[u8], packet: &[u8], kind: u8) {
    line::label(rt, line);
    let look = packet::look_for(packet, kind);
    show_reading(rt, look.map(|look| look.head));
    print::number(rt, b", items ", look.map_or(0, |look| look.all as u64));
    print::number(
        rt,
        b", of the kind ",
        look.map_or(0, |look| look.count as u64),
    );
    show_place(rt, b", first", look.ok().and_then(|look| look.first));
    show_place(rt, b", behind", look.ok().and_then(|look| look.behind));
    print::text(rt, b"\n");
}

fn show_reading(rt: &impl Print, reading: Result<Head, Refusal>) {
    match reading {
        Ok(Head { opcode, id }) => {
            print::number(rt, b": opcode ", opcode as u64);
            print::number(rt, b" id ", id as u64);
        }
        Err(refusal) => print::number(rt, b": refused ", refusal.number() as u64),
    }
}

fn show_places(rt: &impl Print, packet: &[u8]) {
    show_place(rt, b", name", packet::find(packet, packet::NAME_KIND));
    show_place(rt, b", behind", packet::behind(packet, packet::NAME_KIND));
    show_place(rt, b", end", packet::find(packet, packet::EOF_KIND));
    print::text(rt, b"\n");
}

fn show_place(rt: &impl Print, label: &[u8], found: Option<Item>) {
    print::text(rt, label);
    match found {
        Some(item) => {
            print::number(rt, b" kind ", item.kind as u64);
            print::number(rt, b" at ", item.start as u64);
            print::number(rt, b" length ", item.length as u64);
        }
        None => print::text(rt, b" nothing"),
    }
}
