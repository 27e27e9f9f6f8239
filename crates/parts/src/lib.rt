// Where in a record the reading of a journal is, and what follows a record's bytes.
#![tactic(auto)]

ghost use Rattle.std.specs.Prelude.{◌≡◌, cond, ◌+◌, ◌*◌, ◌<◌, ◌==◌, ltb};
ghost use Rattle.std.specs.List.{list_all};
ghost use Rattle.packet_spec.specs.Header.{types_bad};
ghost use Rattle.journal_spec.specs.Contents.{longest_packet};
ghost use Rattle.parts.specs.Bytes.{going, kind_of, piece_end};
ghost use Rattle.parts.specs.Sound.{whole_pieces, sound_part};

// What comes next: a kind byte, the types of an open, the second of them, a packet's length, its second byte, so many
// bytes of a piece or of a time. Or what reading stopped at: an open, a packet, the end or a break.
#[derive(Clone, Copy)]
pub enum Part {
    Kind,
    Types,
    Red(u8),
    Length,
    Low(u8),
    Piece(usize),
    Time(usize),
    Opened(u8, u8),
    Packet,
    Ended,
    Broken,
}

impl Part {
    // The longest packet; its pieces are as long.
    pub const LONGEST: usize = 1488;
    // The bytes of a piece, and of a time.
    pub const PIECE: usize = 16;

    pub const TIME: usize = 8;

    // Whether reading goes on.
    pub fn is_going(self) -> bool
        ensures { result ≡ going self }
    {
        !matches!(
            self,
            Part::Opened(..) | Part::Packet | Part::Ended | Part::Broken
        )
    }
}

// After a kind byte.
pub fn kind(opened: bool, inside: bool, b: u8) -> Part
    ensures { result ≡ kind_of opened inside b }
{
    match b {
        3 if inside => Part::Piece(Part::PIECE),
        _ if inside => Part::Broken,
        4 => Part::Time(Part::TIME),
        2 if opened => Part::Length,
        0 if opened => Part::Ended,
        1 if !opened => Part::Types,
        _ => Part::Broken,
    }
}

// A packet's length, by its two bytes.
pub fn length(high: u8, low: u8) -> usize
    ensures { (result ≡ high * 256 + low) × (result < 65536) }
{
    u16::from_be_bytes([high, low]).into()
}

pub fn is_too_long(n: usize) -> bool
    ensures { result ≡ ltb longest_packet n }
{
    Part::LONGEST < n
}

// After an open.
pub fn opening(t140: u8, red: u8) -> Part
    ensures { result ≡ cond (types_bad t140 red) Part.Broken (Part.Opened t140 red) }
{
    if header::types_bad(t140, red) {
        Part::Broken
    } else {
        Part::Opened(t140, red)
    }
}

fn are_zeros(s: &[u8]) -> bool
    ensures { result ≡ list_all (λ b. b == 0) s.now }
{
    s.iter().all(|b| *b == 0)
}

// After a whole piece: more follow, or the packet is whole, or its filling is not zeros.
pub fn piece_end(size: usize, pieces: &[u8]) -> Part
    ensures { result ≡ piece_end size pieces.now }
{
    if pieces.len() < size {
        Part::Kind
    } else if are_zeros(&pieces[size..]) {
        Part::Packet
    } else {
        Part::Broken
    }
}

fn whole_pieces(n: usize) -> bool
    ensures { result ≡ whole_pieces n }
{
    n <= Part::LONGEST && n % Part::PIECE == 0
}

// Whether reading can go on from a part with `at` bytes of the pieces of a packet of `size` bytes.
pub fn is_sound(part: Part, size: usize, at: usize) -> bool
    ensures { result ≡ sound_part part size at }
{
    size <= Part::LONGEST
        && match part {
            // n bytes of a piece are to come after `at` others.
            Part::Piece(n) => {
                1 <= n && n <= Part::LONGEST && at <= Part::LONGEST && whole_pieces(at + n)
            }
            Part::Time(n) => 1 <= n && whole_pieces(at),
            Part::Packet => size <= at && whole_pieces(at),
            _ => whole_pieces(at),
        }
}
