// Bytes of the journal are taken, until something is due.
ghost use Rattle.std.specs.Prelude.{◌≡◌, true};
ghost use Rattle.standing.specs.Standing.{hungry};
ghost use Rattle.journal.specs.Ready.{standing_of, transcript_ready, Takes};

use crate::{Transcript, settling};
use due::Due;

// How many bytes of the journal were used.
#[derive(Clone, Copy)]
pub struct Taken {
    pub transcript: Transcript,
    pub used: usize,
}

pub fn take(s: Transcript, input: &[u8], packet: &mut [u8; Transcript::BUFFER]) -> Taken
    requires { (transcript_ready s ≡ true) × (hungry (standing_of s packet.old) ≡ true) }
    ensures { Takes s packet.old input.now result.transcript packet.new result.used }
{
    let n = input.len().min(s.left);
    let done = records::read(s.reader, &input[..n], packet);
    let read = Transcript {
        reader: done.reader,
        left: s.left - done.used,
        due: Due::none(),
        ..s
    };
    Taken {
        transcript: settling::settle(read, packet),
        used: done.used,
    }
}
