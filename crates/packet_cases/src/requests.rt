// A request as it is written into three buffers, and the whole of each buffer after it.
use cases::{line, print};
use refusals::Refusal;

// Room for each request that is a case, for some of them, and for none.
const ROOMY: usize = 18;

const TIGHT: usize = 8;

const SHORT: usize = 3;

pub(crate) fn show(rt: &impl Print, line: &[u8], bytes: &[u8]) {
    let mut roomy = [0xeeu8; ROOMY];
    show_written(rt, line, bytes, &mut roomy);
    let mut tight = [0xddu8; TIGHT];
    show_written(rt, line, bytes, &mut tight);
    let mut short = [0xccu8; SHORT];
    show_written(rt, line, bytes, &mut short);
}

fn show_written(rt: &impl Print, line: &[u8], bytes: &[u8], out: &mut [u8]) {
    line::label(rt, line);
    let written = write(line::key(line), bytes, out);
    match written {
        Ok(length) => print::number(rt, b": length ", length as u64),
        Err(refusal) => print::number(rt, b": refused ", refusal.number() as u64),
    }
    print::hex(rt, b" ", out);
    print::text(rt, b"\n");
}

fn write(key: u8, bytes: &[u8], out: &mut [u8]) -> Result<usize, Refusal> {
    match key {
        b'g' => packet::property_get(0x1234, bytes, out),
        b'f' => packet::file_request(0xff01, bytes, None, out),
        b'o' => packet::file_request(0xff01, bytes, Some(0x01020304), out),
        b'd' => packet::fetched(256, bytes, out),
        _ => packet::stop(255, out),
    }
}
