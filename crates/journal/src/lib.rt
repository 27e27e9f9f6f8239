// A journal's transcript, from pieces of any size into space of any size.
#![tactic(auto)]

mod filling;
mod settling;
mod state;
mod taking;

ghost use Rattle.std.specs.Prelude.{◌≡◌, not};
ghost use Rattle.due.specs.Due.{none_due};
ghost use Rattle.journal.specs.Ready.{first, Filling, Stopping, done};

use counts::Counts;
use due::Due;
use reading::Reader;
use receiver::Receiver;

const BUFFER: usize = Transcript::BUFFER;

// A transcript under way: the journal's reader, the receiver, the counts, how many bytes of the journal may still be
// read, and what is due.
#[derive(Clone, Copy)]
pub struct Transcript {
    pub reader: Reader,
    pub receiver: Receiver,
    pub counts: Counts,
    pub left: usize,
    pub due: Due,
}

// How many bytes of the journal were used, and how many bytes of the space were filled.
#[derive(Clone, Copy)]
pub struct Filled {
    pub transcript: Transcript,
    pub used: usize,
    pub count: usize,
}

// All calls on a transcript are lent the same packet buffer, whose bytes stay between them. A call that is lent a shorter
// one than `BUFFER`, or a transcript that these calls did not leave, does nothing.
impl Transcript {
    // The least length of the packet buffer: the longest packet.
    pub const BUFFER: usize = Reader::BUFFER;
    // So many bytes of a journal are read at most.
    pub const LIMIT: usize = Counts::LIMIT;

    #[tactic(auto, unfolding(journal_spec::specs::Contents::limit))]
    pub fn start() -> Transcript
        ensures { result ≡ first }
    {
        Transcript {
            reader: Reader::fresh(),
            receiver: Receiver::default(),
            counts: Counts::none(),
            left: Transcript::LIMIT,
            due: Due::none(),
        }
    }

    // Gives what is due into the space and takes the journal's next bytes, in turns, until something stays due, reading
    // has ended or all bytes are used. What was not used is lent again. Into the space go whole marks, then text: with
    // marks due, one or two bytes of it get nothing.
    pub fn fill(self, input: &[u8], packet: &mut [u8], space: &mut [u8]) -> Filled
        ensures { Filling self packet.old input.now space.old result.transcript packet.new space.new result.used result.count }
    {
        let nothing = Filled {
            transcript: self,
            used: 0,
            count: 0,
        };
        if !state::is_ready(self, packet.len()) {
            return nothing;
        }
        match packet.first_chunk_mut::<BUFFER>() {
            Some(front) => filling::fill(self, input, front, space),
            // not reached: the buffer has the space
            None => nothing,
        }
    }

    // The journal has no more bytes: without its end it is broken.
    pub fn stop(self, packet: &mut [u8]) -> Transcript
        ensures { Stopping self packet.old result packet.new }
    {
        if !state::is_ready(self, packet.len()) {
            return self;
        }
        match packet.first_chunk_mut::<BUFFER>() {
            Some(front) => settling::stop(self, front),
            // not reached, as above
            None => self,
        }
    }

    // Whether marks or text are due.
    pub fn is_due(self) -> bool
        ensures { result ≡ not (none_due self.due) }
    {
        !self.due.is_none()
    }

    // Whether the end has come, and all is given.
    pub fn is_done(self) -> bool
        ensures { result ≡ done self }
    {
        !self.reader.part.is_going() && self.due.is_none()
    }
}
