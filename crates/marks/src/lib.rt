// Loss marks (RFC 4103, section 5.3).
#![tactic(auto)]

ghost use Rattle.std.specs.Prelude.{◌≡◌};
ghost use Rattle.receiver_spec.specs.Marks.{marks_written, marks_over};

// The mark that stands for one lost block. The type has no fields: it gives the constants their name.
#[derive(Clone, Copy)]
pub struct LossMark {}

impl LossMark {
    pub const SIZE: usize = 3;

    pub const BYTES: [u8; LossMark::SIZE] = [0xEF, 0xBF, 0xBD];
}

// Writes so many loss marks, or as many whole ones as there is space for, from the start of the space, and says how
// many; the other bytes stay.
pub fn write_marks(count: usize, space: &mut [u8]) -> usize
    ensures { (result ≡ marks_written count space.old) × (space.new ≡ marks_over count space.old) }
{
    let written = count.min(space.len() / LossMark::SIZE);
    // by places: after a walk by `chunks_exact_mut` a proof knows the space's length and not its bytes. A byte at a time: these
    // stores become wide ones, and a copy for each mark does not (5.7 times the instructions where marks are many)
    let mark = LossMark::BYTES;
    for k in 0..written {
        let at = LossMark::SIZE * k;
        space[at] = mark[0];
        space[at + 1] = mark[1];
        space[at + 2] = mark[2];
    }
    written
}
