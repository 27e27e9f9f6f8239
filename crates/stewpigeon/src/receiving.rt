// The receiver for C and Rust callers, who lend its record by a pointer. All zeros are a receiver too: it refuses every
// packet.
ghost use Rattle.std.specs.Prelude.{◌≡◌};
ghost use Rattle.receiver_spec.specs.Opening.{open_receiver};
ghost use Rattle.receiver_spec.specs.Step.{step_of};
ghost use Rattle.receiver_spec.specs.Marks.{marks_written, marks_over};
ghost use Rattle.boundary.specs.Receiving.{held_in, lent_record, step_number, step_behind, receiver_behind};

use boundary::{ReceiverRecord, Step};
use receiver::Receiver;

// Opens a receiver in the record lent: 0, or the refusal's number and a record of all zeros.
#[unsafe(no_mangle)]
pub extern "C" fn stewpigeon_receiver_open(receiver: &mut ReceiverRecord, t140: u8, red: u8) -> u8
    ensures { (result ≡ (open_receiver t140 red).number) × (receiver.new ≡ lent_record (open_receiver t140 red).receiver) }
{
    let opened = Receiver::open(t140, red).map(ReceiverRecord::from);
    crate::store_opened(opened, ReceiverRecord::default(), receiver)
}

// The receiver's step: 0 where the packet is accepted, whatever its course, else the refusal's number. A refused packet leaves
// both records, a late one the receiver's.
#[unsafe(no_mangle)]
pub extern "C" fn stewpigeon_receiver_step(
    receiver: &mut ReceiverRecord,
    packet: &[u8],
    step: &mut Step,
) -> u8
    ensures { (result ≡ step_number (step_of (held_in receiver.old) packet.now).answer) × (receiver.new ≡ receiver_behind (step_of (held_in receiver.old) packet.now) receiver.old) × (step.new ≡ step_behind (step_of (held_in receiver.old) packet.now).answer step.old) }
{
    match boundary::advance(*receiver, packet) {
        Ok(advanced) => {
            *step = Step::from(Ok(advanced.answer));
            if !boundary::is_late(Ok(advanced.answer)) {
                *receiver = ReceiverRecord::from(advanced.receiver);
            }
            0
        }
        Err(refusal) => u8::from(refusal),
    }
}

// Fills the space from its start with whole loss marks, as many as fit and at most `count`, and answers how many.
#[unsafe(no_mangle)]
pub extern "C" fn stewpigeon_write_marks(count: usize, space: &mut [u8]) -> usize
    ensures { (result ≡ marks_written count space.old) × (space.new ≡ marks_over count space.old) }
{
    marks::write_marks(count, space)
}
