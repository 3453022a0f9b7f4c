// Rules 8 to 12, with 36, of a file's last bytes, and rules 1 to 12, with 36, of a file.
ghost use Rattle.std.specs.Prelude.{◌≡◌, not, ◌-◌, ◌≤◌, length, Err};
ghost use Rattle.refusal.specs.Check.{◌⊳◌};
ghost use Rattle.frame.specs.Kind as kind;
ghost use Rattle.frame.specs.Frame.{foot_len, framed_of, footer_check, counts_check, frame_check};
ghost use Rattle.frame.specs.Open.{framing};

use super::ends::{ends_check, flags_of, size_check, sum_check};
use frame::Framed;
use frame::ends::{body_of, foot_len};
use open_counts::counts_good;
use open_table::rows_framing;
use refusal::Refusal;

// Rule 12.
#[tactic(auto, unfolding(frame::specs::Open::framing))]
pub fn counted(flags: u64, x: Framed) -> Result<Framed, Refusal>
    ensures { result ≡ framing (counts_check flags x) x }
{
    if !counts_good(flags, x) {
        return Err(Refusal::Counts);
    }
    Ok(x)
}

// Rules 8 to 11, with 36, of the last bytes t of a file of that size. The footer lies within t, and its length is good.
#[tactic(auto, unfolding(frame::specs::Open::framing, frame::specs::Frame::footer_check, frame::specs::Frame::framed_of))]
pub fn footed(size: usize, t: &[u8]) -> Result<Framed, Refusal>
    requires { (length t.now ≤ kind.most_bytes) × (kind.least_footer ≤ foot_len t.now) × (foot_len t.now ≤ length t.now) × (foot_len t.now ≤ size) }
    ensures { result ≡ framing (footer_check size t.now) (framed_of t.now) }
{
    sum_check(t)?;
    rows_framing(body_of(t), (size - foot_len(t)) as u64)
}

// Rules 8 to 12, with 36.
#[tactic(auto, unfolding(frame::specs::Open::framing))]
pub fn footer_framing(size: usize, flags: u64, t: &[u8]) -> Result<Framed, Refusal>
    requires { (length t.now ≤ kind.most_bytes) × (kind.least_footer ≤ foot_len t.now) × (foot_len t.now ≤ length t.now) × (foot_len t.now ≤ size) }
    ensures { result ≡ framing (footer_check size t.now ⊳ counts_check flags (framed_of t.now)) (framed_of t.now) }
{
    counted(flags, footed(size, t)?)
}

// Rules 1 to 12, with 36, of a file.
#[tactic(auto, unfolding(frame::specs::Open::framing, frame::specs::Frame::frame_check, frame::specs::Frame::shape_check))]
pub fn frame_of(file: &[u8]) -> Result<Framed, Refusal>
    ensures { result ≡ framing (frame_check (length file.now) file.now file.now) (framed_of file.now) }
{
    size_check(file.len())?;
    ends_check(file.len(), file, file)?;
    footer_framing(file.len(), flags_of(file), file)
}
