// The blocks kept, and which of them a packet repeats.
#![tactic(auto)]

ghost use Rattle.std.specs.Prelude.{◌≡◌, ◌*◌, ◌≤◌, take};
ghost use Rattle.packet_spec.specs.Limits.{level};
ghost use Rattle.sender_spec.specs.Limits.{room_size};
ghost use Rattle.carrying.specs.Internal.Young.{young_run, text_total, tagged, TagFirst};

use packet::Packet;

// The limits of a block that is written.
#[derive(Clone, Copy)]
pub struct Block {}

impl Block {
    // Its bytes at most.
    pub const ROOM: usize = 160;

    // It is repeated for so many ms.
    pub const OLDEST: u64 = 16383;
}

// How many older blocks a packet carries, the bytes of their texts, and a tag of each: its age and the bytes of its text, in one
// number above 0. Tags after the last are 0, and no Option: headers and texts are written from all of them, in loops that are
// unrolled (docs/DECISIONS.md).
#[derive(Clone, Copy)]
pub struct Carried {
    pub count: usize,
    pub text: usize,
    pub tags: [u64; Packet::LEVEL],
    ghost few: { count ≤ level },
    ghost little: { text ≤ room_size * level },
    ghost first: { TagFirst tags count },
}

// The blocks kept, newest first, by their lengths and times; the first `count` count. Two arrays and a number: so they lie in C's
// record.
#[repr(C)]
#[derive(Clone, Copy, Default)]
pub struct Kept {
    pub lens: [usize; Packet::LEVEL],
    pub ats: [u64; Packet::LEVEL],
    pub count: usize,
}

impl Kept {
    // What a packet carries of the first `most` blocks.
    pub fn run(self, most: usize, clock: u64) -> Carried
        ensures { (result.count ≡ young_run clock (take most self.ats)) × (result.text ≡ text_total (take result.count self.lens)) × (result.count ≤ level) × (result.text ≤ room_size * level) × (result.tags ≡ tagged clock self.lens self.ats result.count) }
    {
        let mut count = 0;
        let mut text = 0;
        let mut tags = [0; Packet::LEVEL];
        for (i, at) in self.ats.iter().enumerate() {
            // two tests: joined by `||`, both are always made
            if i == most {
                break;
            }
            let age = clock.saturating_sub(*at);
            if Block::OLDEST < age {
                break;
            }
            // by the place: std has no lemma on a zip with `iter_mut`, as of the tags
            let size = self.lens[i].min(Block::ROOM);
            // `as`: there is no From between usize and u64
            tags[i] = (16384 + age) * 256 + size as u64;
            text += size;
            count += 1;
        }
        Carried { count, text, tags }
    }
}
