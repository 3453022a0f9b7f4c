// The header of a file for C: numbers, and each id as its 16 bytes.
ghost use Rattle.std.specs.Prelude.{◌≡◌};
ghost use Rattle.codes.specs.Ids.{id_bytes};
ghost use Rattle.refusal.specs.Refusal.{number_of, place_of, beside_of};
ghost use Rattle.reader.specs.Header.{header_of};
ghost use Rattle.edge_sst_c.specs.Header.{fields_told, without_fields, header_told};

use codes::ids::{Id, put_id};
use frame::ends::Header;
use reader::header::header;
use refusal::{Refusal, told_of};

// A refusal's number and places, or zeros and what the header says; where it is refused, all else is 0.
#[repr(C)]
#[derive(Drop)]
pub struct EdgeSstHeader {
    pub number: u64,
    pub place: u64,
    pub beside: u64,
    pub minor: u64,
    pub direction: u64,
    pub flags: u64,
    pub edgetype: [u8; 16],
    pub source: [u8; 16],
    pub destination: [u8; 16],
}

pub fn id_told(id: Id) -> [u8; 16]
    ensures { result ≡ id_bytes id }
{
    let mut bytes = [0u8; 16];
    put_id(&mut bytes, 0, id);
    bytes
}

fn fields_told(h: Header) -> EdgeSstHeader
    ensures { result ≡ fields_told h }
{
    let edgetype = h.edgetype;
    let source = h.source;
    let destination = h.destination;
    EdgeSstHeader {
        number: 0,
        place: 0,
        beside: 0,
        minor: h.minor as u64,
        direction: h.direction as u64,
        flags: h.flags as u64,
        edgetype: id_told(edgetype),
        source: id_told(source),
        destination: id_told(destination),
    }
}

fn no_fields(r: Refusal) -> EdgeSstHeader
    ensures { result ≡ without_fields (number_of r) (place_of r) (beside_of r) }
{
    let t = told_of(r);
    EdgeSstHeader {
        number: t.number as u64,
        place: t.place,
        beside: t.beside,
        minor: 0,
        direction: 0,
        flags: 0,
        edgetype: [0u8; 16],
        source: [0u8; 16],
        destination: [0u8; 16],
    }
}

// The header of a file.
#[unsafe(no_mangle)]
pub extern "C" fn edge_sst_header(file: &[u8]) -> EdgeSstHeader
    ensures { result ≡ header_told (header_of file.now) }
{
    match header(file) {
        Ok(h) => fields_told(h),
        Err(refusal) => no_fields(refusal),
    }
}
