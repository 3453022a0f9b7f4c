// Rules 1 to 8: the size, the header, the trailer and the footer's checksum. They see the size, the first bytes h and the
// last bytes t, and no more.
ghost use Rattle.std.specs.Prelude.{◌≡◌, ◌≤◌, length, Err};
ghost use Rattle.frame.specs.Kind as kind;
ghost use Rattle.frame.specs.Frame.{size_check, head_check, tail_check, ends_check, sum_check, flags_of, foot_len};

use codes::little::{byte, le};
use frame::bounds::Bounds;
use frame::ends::{Footer, Header, Trailer, body_of, foot_len};
use refusal::Refusal;
use xxh3_whole::xxh3;

// Rule 1.
#[tactic(auto, unfolding(frame::specs::Frame::size_check))]
pub fn size_check(size: usize) -> Result<(), Refusal>
    ensures { result ≡ size_check size }
{
    if size < Header::SIZE + Trailer::SIZE || Bounds::BYTES < size as u64 {
        return Err(Refusal::Size);
    }
    Ok(())
}

// The flags of the first bytes.
pub fn flags_of(h: &[u8]) -> u64
    requires { kind.header_size ≤ length h.now }
    ensures { result ≡ flags_of h.now }
{
    le::<4>(h, Header::FLAGS)
}

// Rules 2 to 5.
#[tactic(auto, unfolding(frame::specs::Frame::head_check))]
fn head_check(h: &[u8]) -> Result<(), Refusal>
    requires { kind.header_size ≤ length h.now }
    ensures { result ≡ head_check h.now }
{
    if le::<8>(h, 0) != Header::MAGIC {
        return Err(Refusal::Magic);
    }
    if byte(h, Header::MAJOR) != 1 {
        return Err(Refusal::Major);
    }
    if le::<2>(h, Header::OWN_SIZE) != Header::SIZE as u64 {
        return Err(Refusal::HeaderSize);
    }
    if 15 < flags_of(h) {
        return Err(Refusal::Flags);
    }
    Ok(())
}

// Rules 6 and 7.
#[tactic(auto, unfolding(frame::specs::Frame::tail_check))]
fn tail_check(size: usize, t: &[u8]) -> Result<(), Refusal>
    requires { (kind.trailer_size ≤ length t.now) × (kind.header_size ≤ size) }
    ensures { result ≡ tail_check size t.now }
{
    if le::<8>(t, t.len() - 8) != Header::MAGIC {
        return Err(Refusal::TailMagic);
    }
    let foot = foot_len(t);
    if foot < Footer::LEAST || size - Header::SIZE < foot {
        return Err(Refusal::FooterLength);
    }
    Ok(())
}

// Rules 2 to 7.
#[tactic(auto, unfolding(frame::specs::Frame::ends_check))]
pub fn ends_check(size: usize, h: &[u8], t: &[u8]) -> Result<(), Refusal>
    requires { (kind.header_size ≤ size) × (kind.header_size ≤ length h.now) × (kind.trailer_size ≤ length t.now) }
    ensures { result ≡ ends_check size h.now t.now }
{
    head_check(h)?;
    tail_check(size, t)
}

// Rule 8.
#[tactic(auto, unfolding(frame::specs::Frame::sum_check))]
pub(crate) fn sum_check(t: &[u8]) -> Result<(), Refusal>
    requires { (kind.least_footer ≤ foot_len t.now) × (foot_len t.now ≤ length t.now) }
    ensures { result ≡ sum_check t.now }
{
    if xxh3(body_of(t)) != le::<8>(t, t.len() - Trailer::SIZE) {
        return Err(Refusal::FooterSum);
    }
    Ok(())
}
