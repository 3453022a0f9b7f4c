// Header, footer and trailer: their sizes, and where the footer lies in a file's last bytes.
ghost use Rattle.std.specs.Prelude.{◌≡◌, ◌-◌, ◌≤◌, length};
ghost use Rattle.frame.specs.Kind as kind;
ghost use Rattle.frame.specs.Frame.{foot_len, body_of};

use codes::ids::Id;
use codes::little::le;

// What the header says, beside its magic, major version and size, which opening asks.
#[derive(Drop)]
pub struct Header {
    pub minor: u8,
    // 1 says that the file is inverse.
    pub direction: u8,
    pub flags: u32,
    pub edgetype: Id,
    pub source: Id,
    pub destination: Id,
}

impl Header {
    pub const SIZE: usize = 64;

    // `TGEDGE` and two zero bytes, as a little-endian number.
    pub const MAGIC: u64 = 0x0000_4547_4445_4754;

    // Where the fields stand in it; the magic stands first.
    pub const MAJOR: usize = 8;

    pub const MINOR: usize = 9;

    pub const OWN_SIZE: usize = 10;

    pub const FLAGS: usize = 12;

    pub const EDGE_TYPE: usize = 16;

    pub const SOURCE: usize = 32;

    pub const DESTINATION: usize = 48;

    // The weight of flag bit 3, which says inverse.
    pub const INVERSE: u64 = 8;
}

// A footer is its body and the trailer.
#[derive(Drop)]
pub struct Footer {}

impl Footer {
    pub const LEAST: usize = 39;

    // Bytes of a body without entries: the section count, and what ends it.
    pub const EMPTY: usize = 19;

    // Key count, edge count and offset bits, which end the body.
    pub const COUNTS: usize = 17;
}

#[derive(Drop)]
pub struct Trailer {}

impl Trailer {
    pub const SIZE: usize = 20;
}

// The footer length that the last bytes t give.
pub fn foot_len(t: &[u8]) -> usize
    requires { kind.trailer_size ≤ length t.now }
    ensures { result ≡ foot_len t.now }
{
    le::<4>(t, t.len() - 12) as usize
}

// Where the footer begins in them.
pub fn foot_at(t: &[u8]) -> usize
    requires { (kind.trailer_size ≤ length t.now) × (foot_len t.now ≤ length t.now) }
    ensures { result ≡ length t.now - foot_len t.now }
{
    t.len() - foot_len(t)
}

// The footer's body.
pub fn body_of<'a>(t: &'a [u8]) -> &'a [u8]
    requires { (kind.trailer_size ≤ foot_len t.now) × (foot_len t.now ≤ length t.now) }
    ensures { result.now ≡ body_of t.now }
{
    let a = foot_at(t);
    let e = t.len() - Trailer::SIZE;
    &t[a..e]
}
