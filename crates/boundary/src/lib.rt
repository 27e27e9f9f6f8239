// What the exported calls answer, in the numbers and records of their callers. A flag in a record is a byte: 0 is false,
// and any other value true.
#![tactic(auto)]

pub mod packets;

ghost use Rattle.std.specs.Prelude.{◌≡◌};
ghost use Rattle.text_spec.specs.Utf8.{text_of};
ghost use Rattle.packet.specs.Places.{expected_source};
ghost use Rattle.receiver_spec.specs.Kinds.{was_late};
ghost use Rattle.receiver_spec.specs.Step.{step_of};
ghost use Rattle.receiver.specs.View.{receiver_of, given_of, answered, advanced};
ghost use Rattle.boundary.specs.Answers.{expected_of, text_answer};
ghost use Rattle.boundary.specs.Receiving.{held_in, lent_record, nothing_given, some_given, step_record};

use packet::Refusal;
use receiver::{Advanced, Answer, Given, Receiver};
use text::NotText;

// The source that a packet must have: any where `expects` is 0, else `source`.
pub fn expected_of(expects: u8, source: u32) -> Option<u32>
    ensures { expected_source result ≡ expected_of expects source }
{
    (expects != 0).then_some(source)
}

// What bytes are as UTF-8: text of so many characters, or not, and then the place of the first byte at which they can no
// longer be. In a record of C's callers a flag stands beside its value.
#[repr(C)]
#[derive(Clone, Copy)]
pub struct TextAnswer {
    pub is_text: u8,
    pub characters: usize,
    pub place: usize,
}

pub fn text(bytes: &[u8]) -> TextAnswer
    ensures { result ≡ text_answer (text_of bytes.now) }
{
    match text::text_of(bytes) {
        Ok(n) => TextAnswer {
            is_text: 1,
            characters: n,
            place: 0,
        },
        Err(NotText { place }) => TextAnswer {
            is_text: 0,
            characters: 0,
            place,
        },
    }
}

// A receiver, as its callers lend it: a flag of C's beside each value.
#[repr(C)]
#[derive(Clone, Copy, Default)]
pub struct ReceiverRecord {
    pub t140: u8,
    pub red: u8,
    pub has_source: u8,
    pub has_kept: u8,
    pub source: u32,
    pub expected: u16,
    pub kept: u16,
}

impl From<ReceiverRecord> for Receiver {
    ghost from_gives = { λ lent receiver. receiver_of receiver ≡ held_in lent };

    fn from(lent: ReceiverRecord) -> Receiver {
        Receiver {
            t140: lent.t140,
            red: lent.red,
            has_source: lent.has_source != 0,
            has_kept: lent.has_kept != 0,
            source: lent.source,
            expected: lent.expected,
            kept: lent.kept,
        }
    }
}

impl From<Receiver> for ReceiverRecord {
    ghost from_gives = { λ receiver lent. lent ≡ lent_record (receiver_of receiver) };

    fn from(receiver: Receiver) -> ReceiverRecord {
        ReceiverRecord {
            t140: receiver.t140,
            red: receiver.red,
            has_source: u8::from(receiver.has_source),
            has_kept: u8::from(receiver.has_kept),
            source: receiver.source,
            expected: receiver.expected,
            kept: receiver.kept,
        }
    }
}

// The step of the receiver in a record.
pub fn advance(lent: ReceiverRecord, packet: &[u8]) -> Result<Advanced<Receiver, Answer>, Refusal>
    ensures { advanced (held_in lent) result ≡ step_of (held_in lent) packet.now }
{
    Receiver::from(lent).advance(packet)
}

pub fn is_late(answer: Result<Answer, Refusal>) -> bool
    ensures { result ≡ was_late (answered answer) }
{
    matches!(answer, Ok(Answer::Late(_)))
}

// What a step answers, for a caller in C: the packet's course, and what it gives. A late packet and a jump have their distance
// alone; a refused packet has nothing to tell. The text given is the packet's bytes from `from` up to `to`.
#[repr(C)]
#[derive(Clone, Copy, Default)]
pub struct Step {
    pub course: u8,
    pub loss: u16,
    pub distance: i16,
    pub older: usize,
    pub given: usize,
    pub from: usize,
    pub to: usize,
}

impl Step {
    // The courses.
    pub const FORWARD: u8 = 0;

    pub const LATE: u8 = 1;

    pub const JUMP: u8 = 2;

    pub const BREAK: u8 = 3;
}

pub fn nothing_given(course: u8, distance: i16) -> Step
    ensures { result ≡ nothing_given course distance }
{
    Step {
        course,
        distance,
        ..Step::default()
    }
}

pub fn some_given(course: u8, given: Given) -> Step
    ensures { result ≡ some_given course (given_of given) }
{
    Step {
        course,
        loss: given.loss,
        distance: given.distance,
        older: given.older,
        given: given.given,
        from: given.from,
        to: given.to,
    }
}

impl From<Result<Answer, Refusal>> for Step {
    ghost from_gives = { λ answer step. step ≡ step_record (answered answer) };

    fn from(answer: Result<Answer, Refusal>) -> Step {
        match answer {
            Ok(Answer::Late(distance)) => nothing_given(Step::LATE, distance),
            Ok(Answer::Jump(distance)) => nothing_given(Step::JUMP, distance),
            Ok(Answer::Break(given)) => some_given(Step::BREAK, given),
            Ok(Answer::Forward(given)) => some_given(Step::FORWARD, given),
            Err(_) => nothing_given(Step::FORWARD, 0),
        }
    }
}
