// How far a journal is read, and what follows bytes that belong to no piece.
#![tactic(auto)]

ghost use Rattle.std.specs.Prelude.{◌≡◌, cond, min};
ghost use Rattle.parts.specs.Bytes.{going};
ghost use Rattle.reading.specs.Reading.{start_reader, outside, with, sound, reader_ready};
ghost use Rattle.reading.specs.Internal.Bytes.{begun_by, kind_by, byte_of, time_of, past_of};

use parts::Part;

// The first `at` bytes of the lent buffer are those of the pieces of the packet begun last, of `size` bytes.
#[derive(Clone, Copy)]
pub struct Reader {
    pub opened: bool,
    pub part: Part,
    pub size: usize,
    pub at: usize,
}

// How many bytes of the journal were used.
#[derive(Clone, Copy)]
pub struct Done {
    pub reader: Reader,
    pub used: usize,
}

impl Reader {
    // The lent buffer holds the longest packet.
    pub const BUFFER: usize = Part::LONGEST;

    // No packet is under way.
    pub fn outside(opened: bool, part: Part) -> Reader
        ensures { result ≡ outside opened part }
    {
        Reader {
            opened,
            part,
            size: 0,
            at: 0,
        }
    }

    pub fn fresh() -> Reader
        ensures { result ≡ start_reader }
    {
        Reader::outside(false, Part::Kind)
    }

    // Whether reading can go on from here.
    pub fn is_sound(self) -> bool
        ensures { result ≡ sound self }
    {
        parts::is_sound(self.part, self.size, self.at)
    }

    // And the lent buffer has the space.
    pub fn is_ready(self, space: usize) -> bool
        ensures { result ≡ reader_ready self space }
    {
        Reader::BUFFER <= space && self.is_sound()
    }

    // The same packet, at another place.
    pub fn with(self, part: Part, at: usize) -> Reader
        ensures { result ≡ with self part at }
    {
        Reader { part, at, ..self }
    }

    // A packet of n bytes begins.
    fn begun(self, n: usize) -> Reader
        ensures { result ≡ begun_by self n }
    {
        if parts::is_too_long(n) {
            return self.with(Part::Broken, self.at);
        }
        Reader {
            part: if n == 0 { Part::Packet } else { Part::Kind },
            size: n,
            at: 0,
            ..self
        }
    }

    // A kind byte.
    pub fn kind(self, b: u8) -> Reader
        ensures { result ≡ kind_by self b }
    {
        let next = parts::kind(self.opened, self.at < self.size, b);
        self.with(next, self.at)
    }

    fn next(self, b: u8) -> Reader
        ensures { result ≡ byte_of self b }
    {
        match self.part {
            Part::Types => self.with(Part::Red(b), self.at),
            Part::Red(a) => self.with(parts::opening(a, b), self.at),
            Part::Length => self.with(Part::Low(b), self.at),
            Part::Low(a) => self.begun(parts::length(a, b)),
            _ => self,
        }
    }

    // A byte of an open's types or of a packet's length; none where reading has stopped.
    pub fn byte(self, b: u8) -> Done
        ensures { (result.reader ≡ byte_of self b) × (result.used ≡ cond (going self.part) 1 0) }
    {
        Done {
            reader: self.next(b),
            used: usize::from(self.part.is_going()),
        }
    }

    // So many bytes of the n that are to come of a time.
    pub fn time(self, n: usize, len: usize) -> Done
        ensures { (result.reader ≡ time_of self n (min n len)) × (result.used ≡ min n len) }
    {
        let used = n.min(len);
        let part = if used < n {
            Part::Time(n - used)
        } else {
            Part::Kind
        };
        Done {
            reader: self.with(part, self.at),
            used,
        }
    }

    // Past what reading stopped at.
    pub fn past(self) -> Reader
        ensures { result ≡ past_of self }
    {
        match self.part {
            Part::Opened(..) => Reader::outside(true, Part::Kind),
            Part::Packet => Reader::outside(self.opened, Part::Kind),
            part => Reader::outside(self.opened, part),
        }
    }
}
