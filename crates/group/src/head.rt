// What stands before the partners: the degree as a varint, and the tag.
ghost use Rattle.std.specs.Prelude.{◌≡◌};
ghost use Rattle.group.specs.Group.{head_of};

use super::fault::{Fault, Flaw};
use codes::varint::short_at;

// The two tags. They stay bytes: one is matched where it is read, and written as it stands.
#[derive(Drop)]
pub struct Tag {}

impl Tag {
    pub const SPLIT: u8 = 0x01;

    pub const DENSE: u8 = 0x10;
}

// The degree and where the payload begins, by the tag.
#[derive(Clone, Copy, Debug, PartialEq, Eq)]
pub enum Head {
    Split { degree: u64, at: usize },
    Dense { degree: u64, at: usize },
}

// Degree 0 is told before the tag is looked at.
pub fn head_of(g: &[u8]) -> Result<Head, Fault>
    ensures { result ≡ head_of g.now }
{
    let (degree, tag) = match short_at(g, 0) {
        Ok(read) => read,
        Err(why) => return Err(Flaw::Number { why }.at(0)),
    };
    if degree == 0 {
        return Err(Flaw::Degree.at(0));
    }
    if g.len() <= tag {
        return Err(Flaw::Cut.at(tag));
    }
    let at = tag + 1;
    match g[tag] {
        Tag::SPLIT => Ok(Head::Split { degree, at }),
        Tag::DENSE => Ok(Head::Dense { degree, at }),
        _ => Err(Flaw::Tag.at(tag)),
    }
}
