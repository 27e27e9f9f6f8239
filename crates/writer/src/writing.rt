// Writes the texts of a packet.
ghost use Rattle.std.specs.Prelude.{◌≡◌, ◌+◌, ◌*◌, ◌≤◌, length};
ghost use Rattle.base.specs.Arrays.{over};
ghost use Rattle.sender_spec.specs.Limits.{room_size};
ghost use Rattle.slots.specs.Slots.{slots, slot_of, slot_text, texts_size};
ghost use Rattle.writer.specs.Internal.Parts.{texts_of};

use carrying::Carried;
use packet::Packet;
use slots::Texts;

// A text of fewer bytes is a short one.
const SHORT: usize = 4;

// Where the slot so many packets back begins.
fn start(room: usize, back: usize) -> usize
    requires { back ≤ slots }
    ensures { (result ≡ slot_of room back * room_size) × (result + room_size ≤ texts_size) }
{
    let at = slots::room_of(room) * Texts::ROOM;
    let before = back * Texts::ROOM;
    if before <= at {
        return at - before;
    }
    at + Texts::SIZE - before
}

// The text of so many packets back, or with 0 what waits; its length. A typed text is a letter or two: so few go one by one, which
// costs less than a copy made for many.
fn put_text(to: &mut [u8], texts: &[u8; Texts::SIZE], room: usize, back: usize, len: usize) -> usize
    requires { (back ≤ slots) × (length (slot_text texts.now (slot_of room back) len) ≤ length to.old) }
    ensures { (result ≡ length (slot_text texts.now (slot_of room back) len)) × (to.new ≡ over (slot_text texts.now (slot_of room back) len) to.old) }
{
    let from = start(room, back);
    if len < SHORT {
        copy_few(&texts[from..from + len], to);
        return len;
    }
    let size = len.min(Texts::ROOM);
    copying::copy(&texts[from..from + size], to);
    size
}

// Copies to the front. By places of the space: with a zip over its `iter_mut` the proof did not close.
fn copy_few(src: &[u8], dst: &mut [u8])
    requires { length src.now ≤ length dst.old }
    ensures { dst.new ≡ over src.now dst.old }
{
    for (i, byte) in src.iter().enumerate() {
        dst[i] = *byte;
    }
}

// The texts of the older blocks, the last of them first, and what waits. The loop is such that it is unrolled, as that of the block
// headers is. By a number, which says how many packets back a text is: std has no lemma on `enumerate().rev()`.
pub fn put_texts(
    to: &mut [u8],
    texts: &[u8; Texts::SIZE],
    room: usize,
    carried: Carried,
    len: usize,
)
    requires { length (texts_of texts.now room carried.tags len carried.count) ≤ length to.old }
    ensures { to.new ≡ over (texts_of texts.now room carried.tags len carried.count) to.old }
{
    let mut at = 0;
    for i in (0..Packet::LEVEL).rev() {
        let tag = carried.tags[i];
        if 0 < tag {
            // `as`: there is no From between u64 and usize
            let n = (tag % 256) as usize;
            at += put_text(&mut to[at..], texts, room, i + 1, n);
        }
    }
    put_text(&mut to[at..], texts, room, 0, len);
}
