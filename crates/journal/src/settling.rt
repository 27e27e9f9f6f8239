// What was read is acted upon.
ghost use Rattle.std.specs.Prelude.{◌≡◌, true};
ghost use Rattle.journal_spec.specs.Lines.{broken_line};
ghost use Rattle.counts.specs.Counts.{OneMore};
ghost use Rattle.standing.specs.Standing.{settled, closed};
ghost use Rattle.journal.specs.Ready.{transcript_ready, standing_of, Stops};

use crate::{Transcript, state};
use parts::Part;
use reading::Reader;

// The journal is broken: its line is due.
pub fn break_off(s: Transcript, packet: &mut [u8; Transcript::BUFFER]) -> Transcript
    requires { transcript_ready s ≡ true }
    ensures { (transcript_ready result ≡ true) × (standing_of result packet.new ≡ closed (standing_of s packet.old) Part.Broken broken_line) }
{
    Transcript {
        reader: Reader::outside(s.reader.opened, Part::Broken),
        due: acting::break_off(packet),
        ..s
    }
}

// The journal has no more bytes.
pub fn stop(s: Transcript, packet: &mut [u8; Transcript::BUFFER]) -> Transcript
    requires { transcript_ready s ≡ true }
    ensures { Stops s packet.old result packet.new }
{
    if state::is_hungry(s) {
        break_off(s, packet)
    } else {
        s
    }
}

// Where reading goes on more is to come, unless the limit is reached.
pub fn settle(s: Transcript, packet: &mut [u8; Transcript::BUFFER]) -> Transcript
    requires { (transcript_ready s ≡ true) × (s.reader.part ≡ Part.Packet → OneMore s.counts s.left) }
    ensures { (transcript_ready result ≡ true) × (standing_of result packet.new ≡ settled (standing_of s packet.old)) }
{
    if s.reader.part.is_going() {
        return if s.left == 0 { break_off(s, packet) } else { s };
    }
    let acted = acting::act(s.reader.part, s.reader.size, s.receiver, s.counts, packet);
    Transcript {
        reader: s.reader.past(),
        receiver: acted.receiver,
        counts: acted.counts,
        due: acted.due,
        ..s
    }
}
