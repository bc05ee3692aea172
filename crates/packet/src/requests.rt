// The four requests that the display writes.
ghost use Rattle.std.specs.Prelude.{◌++◌, ◌+◌, ◌<◌, length};
ghost use Rattle.slices.specs.Written.{fitted, WritesAs};
ghost use Rattle.packet.specs.Packet.{with_head};
ghost use Rattle.packet.specs.Requests.{property_get, file_request, fetched_request, stop_request};
ghost use Rattle.packet.specs.WriterSteps.{request_bytes, located_request};

use crate::names::{valid_location, valid_name};
use crate::{DATA, HEAD_LENGTH, LOCATION_KIND, NAME_KIND, OFFSET_KIND};
use refusals::Refusal;

// The opcodes of the four requests.
// Numbers, not an enum: each is only written, as the byte that it is.
const GET_OPCODE: u8 = 0x02;

const FILE_OPCODE: u8 = 0x0a;

const FETCHED_OPCODE: u8 = 0x0d;

const STOP_OPCODE: u8 = 0x0e;

// How many bytes an Offset is written in.
const OFFSET_LENGTH: u8 = 4;

// Writes a data packet whose items are the three strings joined, if the output has room for it: the
// shared end of the four requests. Opcode and id stay two parameters: the one is a constant where a request
// is written, the other the caller's.
fn write_packet(
    opcode: u8,
    id: u16,
    front: &[u8],
    value: &[u8],
    further: &[u8],
    out: &mut [u8],
) -> Result<usize, Refusal>
    requires { length front.now + length value.now + length further.now < 65536 }
    ensures { WritesAs (fitted (length out.old) (with_head opcode id (front.now ++ value.now ++ further.now))) out.old result out.new }
{
    let first = HEAD_LENGTH + front.len();
    let second = first + value.len();
    let total = second + further.len();
    if out.len() < total {
        return Err(Refusal::ShortOutput);
    }
    let [high, low] = id.to_be_bytes();
    let head = [DATA, opcode, high, low];
    slices::put(out, 0, &head);
    slices::put(out, HEAD_LENGTH, front);
    slices::put(out, first, value);
    slices::put(out, second, further);
    Ok(total)
}

// Writes a request whose first item has the kind and the value; `further` are its other items.
fn write_request(
    opcode: u8,
    id: u16,
    kind: u8,
    value: &[u8],
    further: &[u8],
    out: &mut [u8],
) -> Result<usize, Refusal>
    requires { length value.now + length further.now < 256 }
    ensures { WritesAs (fitted (length out.old) (request_bytes opcode id kind value.now further.now)) out.old result out.new }
{
    let size = value.len() as u8;
    let front = [kind, size];
    write_packet(opcode, id, &front, value, further, out)
}

// Writes a request for the file at a location: refusal 20 for one that is not valid, then 7.
#[tactic(auto, using(crate::proofs::NameLaws::location_size), unfolding(crate::specs::WriterSteps::located_request))]
fn write_located(
    opcode: u8,
    id: u16,
    location: &[u8],
    further: &[u8],
    out: &mut [u8],
) -> Result<usize, Refusal>
    requires { length further.now < 128 }
    ensures { WritesAs (located_request opcode id location.now further.now (length out.old)) out.old result out.new }
{
    if !valid_location(location) {
        return Err(Refusal::BadFragment);
    }
    write_request(opcode, id, LOCATION_KIND, location, further, out)
}

// Writes a property get: refusal 12 for a name that is not valid, then 7.
#[tactic(auto, using(crate::proofs::NameLaws::name_size, crate::proofs::WriteLaws::get_bytes), unfolding(crate::specs::Requests::property_get))]
pub fn property_get(id: u16, name: &[u8], out: &mut [u8]) -> Result<usize, Refusal>
    ensures { WritesAs (property_get id name.now (length out.old)) out.old result out.new }
{
    if !valid_name(name) {
        return Err(Refusal::BadName);
    }
    write_request(GET_OPCODE, id, NAME_KIND, name, b"", out)
}

// Writes a file request: refusal 20 for a location that is not valid, then 7. The file is sent from
// the offset on, if one is given.
#[tactic(auto, using(crate::proofs::WriteLaws::file_bytes, crate::proofs::WriteLaws::file_bytes_from), unfolding(crate::specs::Requests::file_request, crate::specs::WriterSteps::located_request))]
pub fn file_request(
    id: u16,
    location: &[u8],
    offset: Option<u32>,
    out: &mut [u8],
) -> Result<usize, Refusal>
    ensures { WritesAs (file_request id location.now offset (length out.old)) out.old result out.new }
{
    let Some(place) = offset else {
        return write_located(FILE_OPCODE, id, location, b"", out);
    };
    let [first, second, third, fourth] = place.to_be_bytes();
    let further = [OFFSET_KIND, OFFSET_LENGTH, first, second, third, fourth];
    write_located(FILE_OPCODE, id, location, &further, out)
}

// Writes a fetched packet: refusal 20 for a location that is not valid, then 7.
#[tactic(auto, using(crate::proofs::WriteLaws::fetched_bytes), unfolding(crate::specs::Requests::fetched_request, crate::specs::WriterSteps::located_request))]
pub fn fetched(id: u16, location: &[u8], out: &mut [u8]) -> Result<usize, Refusal>
    ensures { WritesAs (fetched_request id location.now (length out.old)) out.old result out.new }
{
    write_located(FETCHED_OPCODE, id, location, b"", out)
}

// Writes a stop packet, which has no items: refusal 7.
#[tactic(auto, using(crate::proofs::WriteLaws::stop_bytes), unfolding(crate::specs::Requests::stop_request))]
pub fn stop(id: u16, out: &mut [u8]) -> Result<usize, Refusal>
    ensures { WritesAs (stop_request id (length out.old)) out.old result out.new }
{
    write_packet(STOP_OPCODE, id, b"", b"", b"", out)
}
