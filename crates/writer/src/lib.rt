// Writes a packet from a draft and the lent texts: each part fills the front of the space that it is lent, and the rest of the
// space stays.
#![tactic(auto, unfolding(packet_spec::specs::Limits::level))]

mod heading;
mod writing;

ghost use Rattle.std.specs.Prelude.{◌≡◌, length};
ghost use Rattle.writer.specs.Draft.{clock_answer, answer_by, put_of};
ghost use Rattle.slots.specs.Slots.{texts_size};

pub use crate::heading::Heading;
use carrying::Kept;
use packet::Refusal;
use slots::Texts;

// What a packet is written from: the header's values, the clock, the blocks kept, the slot of what waits, and its length. The
// blocks' texts lie in the slots before it, in a circle.
#[derive(Clone, Copy)]
pub struct Draft {
    pub heading: Heading,
    pub clock: u64,
    pub kept: Kept,
    pub room: usize,
    pub len: usize,
}

// What the clock call answers: the length of the packet, or nothing to send.
pub type Answer = Result<Option<usize>, Refusal>;

// By the length of the packet, 0 where there is nothing to send, and the length of the space.
pub fn answer_by(size: usize, space: usize) -> Answer
    ensures { result ≡ answer_by size space }
{
    if size == 0 {
        return Ok(None);
    }
    if space < size {
        return Err(Refusal::Space);
    }
    Ok(Some(size))
}

// The length of the packet, 0 where there is nothing to send: a number, since an Option would come back through memory. It is
// written to the front of the space, where that holds it; else the space stays. So many texts are lent.
pub fn put_packet(packet: &mut [u8], texts: &[u8; Texts::SIZE], draft: Draft) -> usize
    ensures { (record { answer = clock_answer (answer_by result (length packet.old)); lent = packet.new } ≡ put_of draft texts.now packet.old) × (length texts.now ≡ texts_size) }
{
    let heading = draft.heading;
    let most = heading.level.min(draft.kept.count);
    let carried = draft.kept.run(most, draft.clock);
    let text = carried.text + draft.len.min(Texts::ROOM);
    if text == 0 {
        return 0;
    }
    let front = heading.size(carried.count);
    let size = front + text;
    if packet.len() < size {
        return size;
    }
    heading.put(packet, carried);
    writing::put_texts(&mut packet[front..], texts, draft.room, carried, draft.len);
    size
}
