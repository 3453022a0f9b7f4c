// The header of a file that opens: minor version, direction, flags and the three ids.
ghost use Rattle.std.specs.Prelude.{◌≡◌, ◌≤◌, length};
ghost use Rattle.frame.specs.Kind as kind;
ghost use Rattle.frame.specs.Frame.{header_in};
ghost use Rattle.reader.specs.Header.{header_of};

use super::open::open;
use codes::ids::id_at;
use codes::little::{byte, le};
use frame::ends::Header;
use refusal::Refusal;

// What the first 64 bytes say.
#[tactic(auto, unfolding(frame::specs::Frame::header_in))]
fn fields(file: &[u8]) -> Header
    requires { kind.header_size ≤ length file.now }
    ensures { result ≡ header_in file.now }
{
    let flags = le::<4>(file, Header::FLAGS);
    let edgetype = id_at(file, Header::EDGE_TYPE);
    let source = id_at(file, Header::SOURCE);
    let destination = id_at(file, Header::DESTINATION);
    Header {
        minor: byte(file, Header::MINOR) as u8,
        direction: (flags / Header::INVERSE % 2) as u8,
        flags: flags as u32,
        edgetype,
        source,
        destination,
    }
}

// The header of a file. The file is opened: what its header says counts only where no rule of opening is broken.
pub fn header(file: &[u8]) -> Result<Header, Refusal>
    ensures { result ≡ header_of file.now }
{
    open(file)?;
    Ok(fields(file))
}
