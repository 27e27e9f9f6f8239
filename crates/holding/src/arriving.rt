// What becomes of a packet that was read, and of the one that is held.
ghost use Rattle.std.specs.Prelude.{◌≡◌, ◌&&◌, ◌-◌, ltb, leb};
ghost use Rattle.delivery.specs.Course.{distance};
ghost use Rattle.receiver_spec.specs.State.{keeping_none};
ghost use Rattle.receiver_spec.specs.Record.{loss_of};
ghost use Rattle.receiver.specs.View.{receiver_of, step_answer};
ghost use Rattle.holding_spec.specs.Rule.{longest_hold};
ghost use Rattle.holding.specs.View.{which_of, holding_answer, call_made, advanced};
ghost use Rattle.holding_spec.specs.State as State;
ghost use Rattle.holding_spec.specs.Internal.PlainStep.{told, stayed, was_forward, was_break};
ghost use Rattle.holding.specs.Internal.Arriving.{ArrivesAlone, ArrivesBehind, WaitsBehind};

use crate::{Held, HoldingAnswer, HoldingReceiver, Which};
use packet::{Packet, Refusal};
use receiver::{Advanced, Answer, Receiver};

// A packet that was read, with its bytes.
#[derive(Clone, Copy)]
pub struct Read<'a> {
    pub bytes: &'a [u8],
    pub packet: Packet,
}

// No number is kept.
fn cleared(receiver: Receiver) -> Receiver
    ensures { receiver_of result ≡ keeping_none (receiver_of receiver) }
{
    Receiver {
        has_kept: false,
        kept: 0,
        ..receiver
    }
}

// A break's loss is 0.
fn would_lose(answer: Answer) -> bool
    ensures { result ≡ ltb 0 (loss_of (step_answer answer)) }
{
    match answer {
        Answer::Late(_) | Answer::Jump(_) => false,
        Answer::Break(given) | Answer::Forward(given) => 0 < given.loss,
    }
}

fn is_break(answer: Answer) -> bool
    ensures { result ≡ was_break (step_answer answer) }
{
    matches!(answer, Answer::Break(_))
}

// Something would be lost, and the time to wait for it is not over.
fn is_early(answer: Answer, clock: u64, arrival: u64) -> bool
    ensures { result ≡ (ltb 0 (loss_of (step_answer answer)) && ltb (clock - arrival) longest_hold) }
{
    would_lose(answer) && clock.saturating_sub(arrival) < HoldingReceiver::LONGEST_HOLD
}

// The step's answer to packet `of`, with the packet to keep, and whether the new one is to be given again.
fn tell(answer: Answer, of: Which, keep: Which, again: bool) -> HoldingAnswer
    ensures { holding_answer result ≡ told (which_of of) (which_of keep) again (step_answer answer) }
{
    match answer {
        Answer::Late(distance) => HoldingAnswer::Late { distance, keep },
        Answer::Jump(distance) => HoldingAnswer::Jump { distance, keep },
        Answer::Break(given) => HoldingAnswer::Break(given),
        Answer::Forward(given) => HoldingAnswer::Gives {
            of,
            keep,
            again,
            given,
        },
    }
}

// With none held: the step, but for a packet that would cause loss, which is held.
pub fn arrive_alone(
    receiver: Receiver,
    clock: u64,
    new: Read<'_>,
) -> Result<Advanced<HoldingReceiver, HoldingAnswer>, Refusal>
    ensures { (s : State.HoldingReceiver) → ArrivesAlone (receiver_of receiver) clock new.entry.bytes.now new.entry.packet (advanced s result) }
{
    let step = receiver.accept(new.bytes, new.packet)?;
    if would_lose(step.answer) {
        let held = Held {
            number: new.packet.sequence,
            arrival: clock,
        };
        Ok(Advanced {
            receiver: HoldingReceiver {
                receiver: cleared(receiver),
                held: Some(held),
                clock,
            },
            answer: HoldingAnswer::Waits {
                distance: receiver.distance(new.packet.sequence),
                keep: Which::New,
            },
        })
    } else {
        Ok(Advanced {
            receiver: HoldingReceiver {
                receiver: step.receiver,
                held: None,
                clock,
            },
            answer: tell(step.answer, Which::New, Which::Neither, false),
        })
    }
}

// Both packets are forward, and the new one is the farther from the newest.
fn is_farther(receiver: Receiver, answer: Answer, held: u16, sequence: u16) -> bool
    ensures { result ≡ (was_forward (step_answer answer) && leb (distance held receiver.expected) (distance sequence receiver.expected)) }
{
    matches!(answer, Answer::Forward(_)) && receiver.ahead(held) <= receiver.ahead(sequence)
}

// The step is made, and the held packet stays.
fn stay(
    step: Advanced<Receiver, Answer>,
    held: Held,
    clock: u64,
) -> Advanced<HoldingReceiver, HoldingAnswer>
    ensures { call_made result ≡ stayed (receiver_of step.receiver) (step_answer step.answer) held.number held.arrival clock }
{
    Advanced {
        receiver: HoldingReceiver {
            receiver: step.receiver,
            held: Some(held),
            clock,
        },
        answer: tell(step.answer, Which::New, Which::Held, false),
    }
}

// With one held since `arrival`. A copy of it is late; before a break it goes out; of two forward packets the nearer one does.
pub fn arrive_behind(
    receiver: Receiver,
    arrival: u64,
    clock: u64,
    lent: Read<'_>,
    new: Read<'_>,
) -> Result<Advanced<HoldingReceiver, HoldingAnswer>, Refusal>
    ensures { (s : State.HoldingReceiver) → ArrivesBehind (receiver_of receiver) clock arrival lent.entry.bytes.now lent.entry.packet new.entry.bytes.now new.entry.packet (advanced s result) }
{
    let number = lent.packet.sequence;
    let sequence = new.packet.sequence;
    let held = Held { number, arrival };
    let step = receiver.accept(new.bytes, new.packet)?;
    if !receiver.has_source {
        Ok(stay(step, held, clock))
    } else if sequence == number {
        Ok(Advanced {
            receiver: HoldingReceiver {
                receiver,
                held: Some(held),
                clock,
            },
            answer: HoldingAnswer::Late {
                distance: receiver.distance(sequence),
                keep: Which::Held,
            },
        })
    } else if is_break(step.answer) {
        let given = receiver.give(lent.bytes, lent.packet)?;
        Ok(Advanced {
            receiver: HoldingReceiver {
                receiver: given.receiver,
                held: None,
                clock,
            },
            answer: tell(given.answer, Which::Held, Which::Neither, true),
        })
    } else if is_farther(receiver, step.answer, number, sequence) {
        let given = cleared(receiver).give(lent.bytes, lent.packet)?;
        Ok(Advanced {
            receiver: HoldingReceiver {
                receiver: given.receiver,
                held: Some(Held {
                    number: sequence,
                    arrival: clock,
                }),
                clock,
            },
            answer: tell(given.answer, Which::Held, Which::New, false),
        })
    } else {
        Ok(stay(step, held, clock))
    }
}

// Without a packet: the held one goes out where nothing would be lost, or its time is over.
pub fn wait_behind(
    receiver: Receiver,
    arrival: u64,
    clock: u64,
    lent: Read<'_>,
) -> Result<Advanced<HoldingReceiver, HoldingAnswer>, Refusal>
    ensures { (s : State.HoldingReceiver) → WaitsBehind (receiver_of receiver) clock arrival lent.entry.bytes.now lent.entry.packet (advanced s result) }
{
    let given = receiver.give(lent.bytes, lent.packet)?;
    if is_early(given.answer, clock, arrival) {
        Ok(Advanced {
            receiver: HoldingReceiver {
                receiver,
                held: Some(Held {
                    number: lent.packet.sequence,
                    arrival,
                }),
                clock,
            },
            answer: HoldingAnswer::Waits {
                distance: 0,
                keep: Which::Held,
            },
        })
    } else {
        Ok(Advanced {
            receiver: HoldingReceiver {
                receiver: given.receiver,
                held: None,
                clock,
            },
            answer: tell(given.answer, Which::Held, Which::Neither, false),
        })
    }
}
