// The full check: the release desk's call. Nothing from a file with one wrong section byte.
#![tactic(auto)]

ghost use Rattle.std.specs.Prelude.{◌≡◌, true, Ok};
ghost use Rattle.refusal.specs.Check.{◌⊳◌};
ghost use Rattle.frame.specs.Frame.{rows_of, flags_of, body_of};
ghost use Rattle.frame.specs.Open.{known_of, open_of};
ghost use Rattle.full_check.specs.Full.{sums_from, edges_check, full_check, checked_of};

pub mod data;
pub mod groups;
pub mod marks;
pub mod sums;

use data::edges_check;
use frame::Opened;
use reader::open::open;
use refusal::Refusal;
use sums::sums_check;

// Rules 22, 16 and 28 to 35, and 23 of a file that opens.
fn sections_check(file: &[u8], o: Opened) -> Result<(), Refusal>
    requires { open_of file.now ≡ Ok o }
    ensures { result ≡ sums_from file.now (rows_of (body_of file.now)) 0 ⊳ edges_check (flags_of file.now) (known_of file.now o) }
{
    sums_check(file)?;
    edges_check(file, o)
}

// The record of a file that the full check passes, or the first refusal.
pub fn checked(file: &[u8]) -> Result<Opened, Refusal>
    ensures { result ≡ checked_of file.now }
{
    let opened = open(file)?;
    sections_check(file, opened)?;
    Ok(opened)
}

// Is every section of the file good? Any bytes may be lent; the first refusal is told.
pub fn check(file: &[u8]) -> Result<(), Refusal>
    ensures { result ≡ full_check file.now }
{
    checked(file)?;
    Ok(())
}
