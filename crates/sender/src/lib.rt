// The sender of an RTP text line (RFC 4103, section 5): text waits in a room and leaves in packets that repeat the last blocks.
// The sender is a small record; the texts, what waits and the blocks kept, lie in bytes that the caller lends, and the times of the
// last characters in a log that is lent too.
#![tactic(auto, unfolding(packet_spec::specs::Limits::level))]

mod clocking;
mod opening;

ghost use Rattle.std.specs.Prelude.{◌≡◌, length};
ghost use Rattle.offer.specs.Offer.{outcome_of};
ghost use Rattle.sender.specs.Opening.{Opens};
ghost use Rattle.sender.specs.Offering.{record_in, Offers};
ghost use Rattle.sender.specs.Clocking.{record_at, record_after, Clocks, Sends};

use crate::clocking::Sending;
use carrying::{Block, Kept};
use packet::{Packet, Refusal};
use rate::{Log, Pace};
use settings::{Due, Progress, Settings};
use slots::{Texts, Waiting};
use writer::Answer;

// A sender: its settings, the latest accepted clock, what waits, the last blocks sent, where the times of the last characters lie,
// and how far it has come. The blocks' texts lie in the slots before that of what waits, in a circle. All zeros are a sender too: it
// refuses every call.
#[repr(C)]
#[derive(Clone, Copy, Default)]
pub struct Sender {
    pub settings: Settings,
    pub clock: u64,
    pub waiting: Waiting,
    pub kept: Kept,
    pub pace: Pace,
    pub progress: Progress,
}

impl Sender {
    // The highest number of repeats.
    pub const LEVEL: usize = Packet::LEVEL;
    // The bytes that the waiting room holds.
    pub const ROOM: usize = Texts::ROOM;
    // The age in ms up to which a block is repeated.
    pub const OLDEST: u64 = Block::OLDEST;
    // The bytes to lend for the texts.
    pub const TEXTS: usize = Texts::SIZE;
    // The times to lend.
    pub const LOG: usize = Log::SIZE;

    // Opens a sender, at clock 0.
    #[tactic(auto, using(packet::proofs::Names::number_positive, crate::proofs::Fresh::times_none), unfolding(packet_spec::specs::Limits::level, sender_spec::specs::Calls::open_sender))]
    pub fn open(settings: Settings) -> Result<Sender, Refusal>
        ensures { Opens settings result }
    {
        settings::settings_outcome(settings)?;
        Ok(opening::fresh(settings))
    }

    // Offers text, which joins what waits; where it is refused, the sender and the texts stay as they are.
    pub fn offer(
        &mut self,
        clock: u64,
        text: &[u8],
        texts: &mut [u8; Sender::TEXTS],
    ) -> Result<(), Refusal>
        ensures { Offers self.old texts.old clock text.now result self.new texts.new }
    {
        let characters = self.judge(clock, text, texts)?;
        self.clock = clock;
        self.waiting = self.waiting.joined(clock, text, characters);
        Ok(())
    }

    // Judges an offer, and writes its text after what waits where it is accepted; so many characters join.
    fn judge(
        self,
        clock: u64,
        text: &[u8],
        texts: &mut [u8; Sender::TEXTS],
    ) -> Result<usize, Refusal>
        ensures { Offers self texts.old clock text.now (outcome_of result) (record_in result self clock (length text.now)) texts.new }
    {
        offer::judge(self.settings, self.clock, self.waiting, clock, text, texts)
    }

    // Gives the clock: where a packet is due, it is written to the front of the lent packet; where the call is refused, the
    // sender and all that is lent stay as they are.
    pub fn clock(
        &mut self,
        clock: u64,
        texts: &mut [u8; Sender::TEXTS],
        log: &mut [u64; Sender::LOG],
        packet: &mut [u8],
    ) -> Answer
        ensures { Clocks self.old texts.old log.old clock packet.old result self.new texts.new log.new packet.new }
    {
        match settings::judge(self.settings, self.clock, self.progress, clock)? {
            Due::Early => {
                *self = self.at(clock);
                Ok(None)
            }
            Due::First => {
                let size = self.send(texts, log, clock, packet);
                writer::answer_by(size, packet.len())
            }
            Due::Later => {
                let size = self.send(texts, log, clock, packet);
                writer::answer_by(size, packet.len())
            }
        }
    }

    // Sends the packet of a call that is ready, where there is something to send and the space holds it; the packet's length, as
    // `put` answers it: a number, since an Option would come back through memory. It stands apart and is called in two places, so
    // that it is not inlined and a quiet call saves no registers for it.
    fn send(
        &mut self,
        texts: &mut [u8; Sender::TEXTS],
        log: &mut [u64; Sender::LOG],
        clock: u64,
        packet: &mut [u8],
    ) -> usize
        ensures { Sends self.old texts.old log.old clock packet.old result self.new texts.new log.new packet.new }
    {
        let sending = clocking::put(*self, texts, log, clock, packet);
        match writer::answer_by(sending.size, packet.len()) {
            Ok(Some(_)) => self.after(clock, sending),
            Ok(None) => *self = self.at(clock),
            Err(_) => {}
        }
        sending.size
    }

    // After the packet that is sent.
    fn after(&mut self, clock: u64, sending: Sending)
        ensures { self.new ≡ record_after self.old clock sending.len sending.characters sending.pace }
    {
        self.clock = clock;
        self.waiting = self.waiting.after(sending.len, sending.characters, clock);
        slots::keep_block(&mut self.kept, sending.len, clock);
        self.pace = sending.pace;
        self.progress = self.progress.after(sending.len, clock);
    }

    // After a quiet call.
    fn at(self, clock: u64) -> Sender
        ensures { result ≡ record_at self clock }
    {
        Sender { clock, ..self }
    }
}
