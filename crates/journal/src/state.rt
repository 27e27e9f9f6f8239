// Whether calls on a transcript can go on, and whether reading can.
ghost use Rattle.std.specs.Prelude.{◌≡◌, ◌&&◌, ltb};
ghost use Rattle.journal.specs.Ready.{ready_with, hungry_now};

use crate::Transcript;

// Whether these calls left the transcript, and the lent buffer has the space. That these calls left it stays a clause of the
// private functions: `Transcript` is public and asks for nothing, so a ghost field would want a wrapper round it, made anew after
// each step.
pub fn is_ready(s: Transcript, space: usize) -> bool
    ensures { result ≡ ready_with s space }
{
    s.due.is_within() && s.counts.fit(s.left) && s.reader.is_ready(space)
}

// Whether reading goes on, and nothing is due.
pub fn is_hungry(s: Transcript) -> bool
    ensures { result ≡ hungry_now s }
{
    s.reader.part.is_going() && s.due.is_none()
}

// And there are bytes to read.
pub fn reads(s: Transcript, bytes: usize) -> bool
    ensures { result ≡ (hungry_now s && ltb 0 bytes) }
{
    is_hungry(s) && 0 < bytes
}
