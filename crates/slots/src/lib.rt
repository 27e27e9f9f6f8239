// The slots of the texts lent to a sender, in a circle: what waits lies in one, the blocks kept in those before it.
#![tactic(auto, unfolding(packet_spec::specs::Limits::level))]

ghost use Rattle.std.specs.Prelude.{◌≡◌, length, ◌<◌};
ghost use Rattle.slots.specs.Slots.{slots, room_of, onward, rest_kept};
ghost use Rattle.slots.specs.Held.{joined_of, left_of, kept_with};

use carrying::{Block, Kept};
use packet::Packet;

// The lent texts of a sender: a slot for what waits, and one for each block kept.
#[derive(Clone, Copy)]
pub struct Texts {}

impl Texts {
    // The bytes of a slot: a block's at most.
    pub const ROOM: usize = Block::ROOM;

    pub const SLOTS: usize = Packet::LEVEL + 1;

    pub const SIZE: usize = Texts::SLOTS * Texts::ROOM;
}

// The slot of what waits; 0 where the number is none of a slot.
pub fn room_of(room: usize) -> usize
    ensures { (result ≡ room_of room) × (result < slots) }
{
    circle::place(Texts::SLOTS, room)
}

// The slot after it, in the circle: the oldest block's.
fn next_room(room: usize) -> usize
    ensures { (result ≡ onward room) × (result < slots) }
{
    circle::after(Texts::SLOTS, room_of(room))
}

// What waits: its slot, its length, its characters, and when its first byte was offered.
#[repr(C)]
#[derive(Clone, Copy, Default)]
pub struct Waiting {
    pub room: usize,
    pub len: usize,
    pub characters: usize,
    pub since: u64,
}

impl Waiting {
    // Text of so many characters joins it.
    pub fn joined(self, clock: u64, text: &[u8], characters: usize) -> Waiting
        ensures { result ≡ joined_of self clock (length text.now) characters }
    {
        Waiting {
            room: self.room,
            len: self.len.min(Texts::ROOM) + text.len(),
            characters: self.characters.min(Texts::ROOM) + characters.min(Texts::ROOM),
            since: if 0 < self.len { self.since } else { clock },
        }
    }

    // What is left of it after the bytes taken is written to the next slot.
    pub fn keep_rest(self, texts: &mut [u8; Texts::SIZE], taken: usize)
        ensures { texts.new ≡ rest_kept self.room self.len taken texts.old }
    {
        let size = self.len.min(Texts::ROOM);
        if taken < size {
            let start = room_of(self.room) * Texts::ROOM;
            let to = next_room(self.room) * Texts::ROOM;
            texts.copy_within(start + taken..start + size, to);
        }
    }

    // A packet took so many bytes and characters of it: what is left waits in the next slot, as if offered at the clock.
    pub fn after(self, len: usize, characters: usize, clock: u64) -> Waiting
        ensures { result ≡ left_of self len characters clock }
    {
        Waiting {
            room: next_room(self.room),
            len: self.len.min(Texts::ROOM).saturating_sub(len),
            characters: self.characters.min(Texts::ROOM).saturating_sub(characters),
            since: if 0 < len { clock } else { self.since },
        }
    }
}

// A new block is the newest of those kept, and the last before it stay.
pub fn keep_block(kept: &mut Kept, len: usize, clock: u64)
    ensures { kept.new ≡ kept_with kept.old len clock }
{
    kept.lens.copy_within(..Packet::LEVEL - 1, 1);
    kept.lens[0] = len;
    kept.ats.copy_within(..Packet::LEVEL - 1, 1);
    kept.ats[0] = clock;
    kept.count = kept.count.min(Packet::LEVEL - 1) + 1;
}
