// What is due is given and bytes of the journal are taken, in turns.
ghost use Rattle.std.specs.Prelude.{◌≡◌, true};
ghost use Rattle.journal.specs.Ready.{transcript_ready, Fills};

use crate::{Filled, Transcript, state, taking};

pub fn fill(
    s: Transcript,
    input: &[u8],
    packet: &mut [u8; Transcript::BUFFER],
    space: &mut [u8],
) -> Filled
    requires { transcript_ready s ≡ true }
    ensures { Fills s packet.old input.now space.old result.transcript packet.new space.new result.used result.count }
{
    let mut transcript = s;
    let mut used = 0;
    let mut count = 0;
    // a turn fills and takes any number of bytes, so neither is walked by an iterator
    loop {
        let gave = transcript.due.give(packet, &mut space[count..]);
        transcript.due = gave.due;
        count += gave.count;
        if !state::reads(transcript, input.len() - used) {
            return Filled {
                transcript,
                used,
                count,
            };
        }
        let taken = taking::take(transcript, &input[used..], packet);
        transcript = taken.transcript;
        used += taken.used;
    }
}
