// The receiver of a text line: its state, its opening and its step; and the parts of a step, for a receiver that holds packets.
#![tactic(auto)]

mod accepting;

ghost use Rattle.std.specs.Prelude.{◌≡◌, ◌<◌, if◌then◌else◌, IfOk, IfErr, OnErr};
ghost use Rattle.packet_spec.specs.Limits.{level};
ghost use Rattle.packet_spec.specs.Header.{Any, Only};
ghost use Rattle.packet.specs.Places.{expected_source};
ghost use Rattle.receiver_spec.specs.Opening.{open_receiver};
ghost use Rattle.receiver_spec.specs.Step.{step_of, text_given};
ghost use Rattle.delivery.specs.Course.{distance};
ghost use Rattle.receiver_spec.specs.Distance.{signed};
ghost use Rattle.receiver.specs.View.{receiver_of, opening, answered, step_answer, advanced, handed, handed_of};
ghost use Rattle.receiver.specs.Internal.Read.{read_step, read_given};

use accepting::Arrived;
use packet::{Packet, Refusal};

// The payload types; the source, once the first packet was accepted; the sequence number that is expected next; the number
// that a jump kept, 0 where none is.
// The flags stay beside their values, in place of an Option: C lends any bytes beside a cleared flag, and a call of a receiver that
// holds may leave them as they were (stewpigeon_holding_receiver_step, _wait).
#[derive(Clone, Copy, Default)]
pub struct Receiver {
    pub t140: u8,
    pub red: u8,
    pub has_source: bool,
    pub has_kept: bool,
    pub source: u32,
    pub expected: u16,
    pub kept: u16,
}

// What an accepted packet gives: so many marks, its signed distance, how many older blocks it has, how many of its last blocks
// are given, the primary among them, and where these start and end in the packet.
#[derive(Clone, Copy)]
pub struct Given {
    pub loss: u16,
    pub distance: i16,
    pub older: usize,
    pub given: usize,
    pub from: usize,
    pub to: usize,
}

// What a step answers to an accepted packet. A late packet and a jump tell their distance, and give nothing. A break gives all
// its blocks, and its loss and distance are 0.
#[derive(Clone, Copy)]
pub enum Answer {
    Late(i16),
    Jump(i16),
    Break(Given),
    Forward(Given),
}

// The receiver for the next call, and the answer; a receiver that holds has its own two types here.
#[derive(Clone, Copy)]
pub struct Advanced<R, A> {
    pub receiver: R,
    pub answer: A,
}

// The same with the text: the part of a caller's packet that the answer gives.
#[derive(Clone, Copy)]
pub struct Stepped<'a, R, A> {
    pub receiver: R,
    pub answer: A,
    pub text: &'a [u8],
}

// The source that a packet must have: any, before the first accepted one.
pub fn source_expected(known: bool, source: u32) -> Option<u32>
    ensures { expected_source result ≡ (if known then Only source else Any) }
{
    known.then_some(source)
}

impl Receiver {
    // The distances of late and forward packets, by the limits of RFC 3550, appendix A.1; all others are jumps.
    const FIRST_LATE: i16 = -100;

    const LAST_FORWARD: i16 = 2998;

    pub fn open(t140: u8, red: u8) -> Result<Receiver, Refusal>
        ensures { opening result ≡ open_receiver t140 red }
    {
        if header::types_bad(t140, red) {
            return Err(Refusal::PayloadTypes);
        }
        Ok(Receiver {
            t140,
            red,
            ..Receiver::default()
        })
    }

    // The step: the receiver for the next packet, the answer and the text.
    pub fn step<'a>(self, packet: &'a [u8]) -> Result<Stepped<'a, Receiver, Answer>, Refusal>
        ensures { handed (receiver_of self) result ≡ handed_of (receiver_of self) packet.now }
    {
        let Advanced { receiver, answer } = self.advance(packet)?;
        Ok(Stepped {
            receiver,
            answer,
            text: text(packet, Ok(answer)),
        })
    }

    // The step on a receiver that is lent and changed in place; where it is refused, it stays as it was.
    pub fn step_in_place(&mut self, packet: &[u8]) -> Result<Answer, Refusal>
        ensures { (answered result ≡ (step_of (receiver_of self.old) packet.now).answer) × (receiver_of self.new ≡ (step_of (receiver_of self.old) packet.now).receiver) }
    {
        let advanced = (*self).advance(packet)?;
        *self = advanced.receiver;
        Ok(advanced.answer)
    }

    // The step without its text.
    pub fn advance(self, packet: &[u8]) -> Result<Advanced<Receiver, Answer>, Refusal>
        ensures { advanced (receiver_of self) result ≡ step_of (receiver_of self) packet.now }
    {
        let expected = source_expected(self.has_source, self.source);
        let read = reader::read_from(expected, self.t140, self.red, packet)?;
        let arrived = Arrived {
            receiver: self,
            bytes: packet,
            packet: read,
        };
        Ok(arrived.accept())
    }

    // The step of a packet that was read of these bytes before.
    #[tactic(auto, unfolding(packet_spec::specs::Limits::level))]
    pub fn accept(self, bytes: &[u8], packet: Packet) -> Result<Advanced<Receiver, Answer>, Refusal>
        ensures { advanced (receiver_of self) result ≡ read_step (receiver_of self) bytes.now packet }
    {
        Ok(self.arrived(bytes, packet)?.accept())
    }

    // The same for one that goes by its distance alone, as a forward one does; the number kept stays.
    #[tactic(auto, unfolding(packet_spec::specs::Limits::level))]
    pub fn give(self, bytes: &[u8], packet: Packet) -> Result<Advanced<Receiver, Answer>, Refusal>
        ensures { advanced (receiver_of self) result ≡ read_given (receiver_of self) bytes.now packet }
    {
        Ok(self.arrived(bytes, packet)?.give())
    }

    // A packet that was read comes to the receiver.
    #[tactic(auto, unfolding(packet_spec::specs::Limits::level))]
    fn arrived(self, bytes: &[u8], packet: Packet) -> Result<Arrived<'_>, Refusal>
        ensures ok { IfOk result (λ a. (a.receiver ≡ self) × (a.bytes.now ≡ bytes.now) × (a.packet ≡ packet)) }
        ensures refused { OnErr result (level < packet.count) }
        ensures which { IfErr result (λ e. e ≡ Refusal.BlockCount) }
    {
        if Packet::LEVEL < packet.count {
            return Err(Refusal::BlockCount);
        }
        Ok(Arrived {
            receiver: self,
            bytes,
            packet,
        })
    }

    // How far ahead of the expected number a packet is, wrapped; and as a signed number.
    pub fn ahead(self, sequence: u16) -> u16
        ensures { result ≡ distance sequence self.expected }
    {
        sequence.wrapping_sub(self.expected)
    }

    pub fn distance(self, sequence: u16) -> i16
        ensures { result ≡ signed (distance sequence self.expected) }
    {
        self.ahead(sequence).cast_signed()
    }
}

// The text that an answer hands out, of the packet that was answered.
pub fn text(packet: &[u8], answer: Result<Answer, Refusal>) -> &[u8]
    ensures { result.now ≡ text_given packet.now (answered answer) }
{
    match answer {
        Ok(Answer::Break(given) | Answer::Forward(given)) => packet::part(
            packet, given.from, given.to,
        ),
        Ok(Answer::Late(_) | Answer::Jump(_)) | Err(_) => &packet[..0],
    }
}
