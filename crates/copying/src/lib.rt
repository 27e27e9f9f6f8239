// Bytes copied to the front of a lent space.
#![tactic(auto)]

ghost use Rattle.std.specs.Prelude.{◌≡◌, ◌≤◌, ◌<◌, length};
ghost use Rattle.base.specs.Arrays.{over};

// Answers how many: all of them where they fit, else none, and the space stays. Std's `copy_from_slice` requires that they
// fit, and no method of std answers where they do not.
pub fn copy(from: &[u8], to: &mut [u8]) -> usize
    ensures fits { length from.now ≤ length to.old → (result ≡ length from.now) × (to.new ≡ over from.now to.old) }
    ensures too_many { length to.old < length from.now → (result ≡ 0) × (to.new ≡ to.old) }
{
    let n = from.len();
    if to.len() < n {
        return 0;
    }
    to[..n].copy_from_slice(from);
    n
}
