// A journal's records, read from parts of it of any length; the packet is gathered in a lent buffer.
#![tactic(auto)]

mod steps;

ghost use Rattle.std.specs.Prelude.{◌≡◌};
ghost use Rattle.records.specs.Internal.Reading.{RecordsRead};

use parts::Part;
use reading::{Done, Reader};

const LONGEST: usize = Part::LONGEST;

// Reads until an open, a packet, the end or a break, or until the input is used up. With a shorter buffer than `BUFFER`, or a
// reader that these calls did not leave, nothing is done.
pub fn read(reader: Reader, input: &[u8], packet: &mut [u8]) -> Done
    ensures { RecordsRead reader packet.old input.now result.reader packet.new result.used }
{
    let nothing = Done { reader, used: 0 };
    if !reader.is_ready(packet.len()) {
        return nothing;
    }
    match packet.first_chunk_mut::<LONGEST>() {
        Some(front) => steps::run(reader, input, front),
        // not reached: the buffer has the space
        None => nothing,
    }
}
