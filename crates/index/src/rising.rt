// Numbers that rise, of a fixed width: what is asked of offsets is asked of the entries of the start index too.
ghost use Rattle.std.specs.Prelude.{◌≡◌, ℕ, ◌+◌, ◌*◌, ◌≤◌, length};
ghost use Rattle.refusal.specs.declared.Refusal.{Refusal};
ghost use Rattle.frame.specs.Kind as kind;
ghost use Rattle.frame.specs.Open.{rising_from};
ghost use Rattle.index.specs.Cases.{told_by};

use codes::little::le;

// Of n + 1 numbers of W bytes the first is 0, each is above the one before, the last is `end`; or which is the first that is not so.
// Each is read once: `last` is number i, which rises, and only the very last is held against the end. Each width has a loop of its
// own.
pub(crate) fn rising<const W: usize>(s: &[u8], n: usize, end: u64) -> Result<(), u64>
    requires { (W ≤ 8) × (n ≤ kind.most_keys) × ((n + 1) * W ≤ length s.now) }
    ensures { (told : ℕ → Refusal) → told_by told result ≡ rising_from told (n + 1) s.now W n end 0 }
{
    let mut last = le::<W>(s, 0);
    if last != 0 {
        return Err(0);
    }
    for i in 0..n {
        let next = le::<W>(s, (i + 1) * W);
        if next <= last {
            return Err(i as u64 + 1);
        }
        last = next;
    }
    if last != end {
        return Err(n as u64);
    }
    Ok(())
}
