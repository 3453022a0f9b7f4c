// Partners alone, of a record whose ranges hold.
ghost use Rattle.std.specs.Prelude.{length, false};
ghost use Rattle.codes.specs.Ids.{id_number};
ghost use Rattle.frame.specs.Open.{known_of};
ghost use Rattle.lookup.specs.Lookup.{look_in};
ghost use Rattle.lookup.specs.Calls.{alone, Alone};
ghost use Rattle.lookup.specs.Record.{Holds};

use super::Looked;
use super::groups::{give_partners, group_of};
use super::known::locate;
use codes::ids::Id;
use frame::Opened;
use group::Partner;
use index::keys::Found;
use refusal::Refusal;

// The partners of a key.
pub fn partners_of(file: &[u8], o: Opened, key: Id, out: &mut [u8]) -> Result<Looked, Refusal>
    requires { Holds file.now o }
    ensures { Alone (look_in false (alone (length out.old)) (known_of file.now o) (id_number key)) result out.old out.new }
{
    match locate(file, o, key) {
        Found::Absent { compared } => Ok(Looked::Absent { compared }),
        Found::At { index, compared } => {
            let degree = group_of(file, o, index)?;
            let room = (out.len() / Partner::DENSE) as u64;
            if room < degree {
                return Err(Refusal::Room { needed: degree });
            }
            give_partners(file, o, index, out);
            Ok(Looked::Found {
                degree,
                index,
                compared,
            })
        }
    }
}
