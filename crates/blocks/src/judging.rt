// Whether the blocks of a payload are text.
ghost use Rattle.std.specs.Prelude.{◌≡◌, cond, ◌+◌, ◌*◌, ◌≤◌, length, drop};
ghost use Rattle.std.proofs.Math.Seq.{slice};
ghost use Rattle.packet_spec.specs.Redundancy.{total, are_text};
ghost use Rattle.packet_spec.specs.Internal.Heads.{heads_in};

use packet::Refusal;
use text::Owed;

// Refused where a block is not text; the first bad byte ends both walks. The older blocks lie together from `first` on, then the
// primary up to `end`. A long payload of ASCII alone is text wherever its blocks part. Most blocks are short, so they are walked a
// byte at a time; a test for ASCII before the full step, `lead` where no letter has begun, and no call for each block: measured,
// each is faster.
pub fn judge_text(
    packet: &[u8],
    from: usize,
    first: usize,
    count: usize,
    end: usize,
) -> Result<(), Refusal>
    requires { (from + 4 * count ≤ first) × (first + total (heads_in count (drop from packet.now)) ≤ end) × (end ≤ length packet.now) }
    ensures { result ≡ cond (are_text (heads_in count (drop from packet.now)) (slice first end packet.now)) (Ok tt) (Err Refusal.BlockText) }
{
    let payload = &packet[first..end];
    if 64 <= payload.len() && text::ascii_end(payload) == payload.len() {
        return Ok(());
    }
    let mut outcome = Ok(());
    let mut at = first;
    'walk: for k in 0..count + 1 {
        let mut to = end;
        if k < count {
            let head = block_headers::head_at(packet, from + 4 * k);
            to = at + usize::from(head.len);
        }
        let block = &packet[at..to];
        let mut owed = Owed::fresh();
        for byte in block {
            if owed.tails == 0 {
                if byte.is_ascii() {
                    continue;
                }
                let Some(next) = text::lead(*byte) else {
                    outcome = Err(Refusal::BlockText);
                    break 'walk;
                };
                owed = next;
            } else {
                let Some(next) = owed.step(*byte) else {
                    outcome = Err(Refusal::BlockText);
                    break 'walk;
                };
                owed = next;
            }
        }
        if owed.tails != 0 {
            outcome = Err(Refusal::BlockText);
            break 'walk;
        }
        at = to;
    }
    outcome
}
