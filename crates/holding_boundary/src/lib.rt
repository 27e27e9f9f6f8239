// What the exported calls of a receiver that holds answer, in the records of their callers.
#![tactic(auto)]

ghost use Rattle.std.specs.Prelude.{◌≡◌};
ghost use Rattle.std.proofs.Math.Option.{none, some};
ghost use Rattle.holding_spec.specs.Opening.{open_holding};
ghost use Rattle.holding_spec.specs.Step.{holding_step};
ghost use Rattle.holding.specs.View.{holding_of, which_of, holding_answer};
ghost use Rattle.holding_boundary.specs.Holding.{held_holding, known, lent_holding, which_byte, gives_nothing, answer_record, Tells, Opens};

use boundary::{ReceiverRecord, Step};
use holding::{Held, HoldingAnswer, HoldingReceiver, Which};
use packet::Refusal;
use receiver::{Advanced, Receiver};

// A receiver that holds, as its callers lend it: a flag of C's beside the values.
#[repr(C)]
#[derive(Clone, Copy, Default)]
pub struct HoldingRecord {
    pub receiver: ReceiverRecord,
    pub has_held: u8,
    pub held: u16,
    pub arrival: u64,
    pub clock: u64,
}

// What a call answers: which packet the text is of, which to keep, whether the new one is to be given again; and the step of the
// packet that is given, or, where none is, the course and the distance of the new one.
#[repr(C)]
#[derive(Clone, Copy)]
pub struct HoldingStep {
    pub of: u8,
    pub keep: u8,
    pub again: u8,
    pub step: Step,
}

impl HoldingStep {
    // Which packet.
    pub const NEITHER: u8 = 0;

    pub const HELD: u8 = 1;

    pub const NEW: u8 = 2;
}

impl From<HoldingRecord> for HoldingReceiver {
    ghost from_gives = { λ lent holder. holding_of holder ≡ known (held_holding lent) };

    fn from(lent: HoldingRecord) -> HoldingReceiver {
        HoldingReceiver {
            receiver: Receiver::from(lent.receiver),
            held: (lent.has_held != 0).then_some(Held {
                number: lent.held,
                arrival: lent.arrival,
            }),
            clock: lent.clock,
        }
    }
}

impl From<HoldingReceiver> for HoldingRecord {
    ghost from_gives = { λ holder lent. lent ≡ lent_holding (holding_of holder) };

    fn from(holder: HoldingReceiver) -> HoldingRecord {
        let lent = HoldingRecord {
            receiver: ReceiverRecord::from(holder.receiver),
            has_held: 0,
            held: 0,
            arrival: 0,
            clock: holder.clock,
        };
        match holder.held {
            None => lent,
            Some(held) => HoldingRecord {
                has_held: 1,
                held: held.number,
                arrival: held.arrival,
                ..lent
            },
        }
    }
}

// Which packet, as a byte.
fn byte_of(which: Which) -> u8
    ensures { result ≡ which_byte (which_of which) }
{
    match which {
        Which::Neither => HoldingStep::NEITHER,
        Which::Held => HoldingStep::HELD,
        Which::New => HoldingStep::NEW,
    }
}

// A call that gives nothing has the new packet's distance alone.
fn nothing_given(course: u8, distance: i16, keep: Which) -> HoldingStep
    ensures { result ≡ gives_nothing course distance (which_of keep) }
{
    HoldingStep {
        of: HoldingStep::NEITHER,
        keep: byte_of(keep),
        again: 0,
        step: boundary::nothing_given(course, distance),
    }
}

impl From<HoldingAnswer> for HoldingStep {
    ghost from_gives = { λ answer step. step ≡ answer_record (holding_answer answer) };

    fn from(answer: HoldingAnswer) -> HoldingStep {
        match answer {
            HoldingAnswer::Waits { distance, keep } => nothing_given(Step::FORWARD, distance, keep),
            HoldingAnswer::Late { distance, keep } => nothing_given(Step::LATE, distance, keep),
            HoldingAnswer::Jump { distance, keep } => nothing_given(Step::JUMP, distance, keep),
            HoldingAnswer::Break(given) => HoldingStep {
                of: HoldingStep::NEW,
                keep: HoldingStep::NEITHER,
                again: 0,
                step: boundary::some_given(Step::BREAK, given),
            },
            HoldingAnswer::Gives {
                of,
                keep,
                again,
                given,
            } => HoldingStep {
                of: byte_of(of),
                keep: byte_of(keep),
                again: u8::from(again),
                step: boundary::some_given(Step::FORWARD, given),
            },
        }
    }
}

// Opens a receiver: its record.
pub fn open(t140: u8, red: u8) -> Result<HoldingRecord, Refusal>
    ensures { Opens (open_holding t140 red) result }
{
    let opened = HoldingReceiver::open(t140, red)?;
    Ok(HoldingRecord::from(opened))
}

// What an accepted call makes, in its caller's records.
fn records(made: Advanced<HoldingReceiver, HoldingAnswer>) -> Advanced<HoldingRecord, HoldingStep>
    ensures { (result.receiver ≡ lent_holding (holding_of made.receiver)) × (result.answer ≡ answer_record (holding_answer made.answer)) }
{
    Advanced {
        receiver: HoldingRecord::from(made.receiver),
        answer: HoldingStep::from(made.answer),
    }
}

// An accepted call: the two records that it leaves.
pub fn step(
    lent: HoldingRecord,
    clock: u64,
    held: &[u8],
    packet: &[u8],
) -> Result<Advanced<HoldingRecord, HoldingStep>, Refusal>
    ensures { Tells (holding_step (held_holding lent) clock held.now (some packet.now)) result }
{
    let made = HoldingReceiver::from(lent).advance(clock, held, packet)?;
    Ok(records(made))
}

// The same without a packet.
pub fn wait(
    lent: HoldingRecord,
    clock: u64,
    held: &[u8],
) -> Result<Advanced<HoldingRecord, HoldingStep>, Refusal>
    ensures { Tells (holding_step (held_holding lent) clock held.now none) result }
{
    let made = HoldingReceiver::from(lent).advance_clock(clock, held)?;
    Ok(records(made))
}
