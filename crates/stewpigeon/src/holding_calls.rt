// The receiver that holds, for C and Rust callers, who lend its record by a pointer, and both packets. All zeros are a receiver too:
// it refuses every call.
ghost use Rattle.std.specs.Prelude.{◌≡◌, MatchResult};
ghost use Rattle.packet.specs.Refusal.{number};
ghost use Rattle.std.proofs.Math.Option.{none, some};
ghost use Rattle.holding_spec.specs.Opening.{open_holding};
ghost use Rattle.holding_spec.specs.Step.{holding_step};
ghost use Rattle.holding_boundary.specs.Holding.{held_holding, lent_holding, answer_number, receiver_behind, step_behind};

use holding_boundary::{HoldingRecord, HoldingStep};
use packet::Refusal;
use receiver::Advanced;

// Opens a receiver in the record lent: 0, or the refusal's number and a record of all zeros.
#[unsafe(no_mangle)]
pub extern "C" fn stewpigeon_holding_receiver_open(
    receiver: &mut HoldingRecord,
    t140: u8,
    red: u8,
) -> u8
    ensures { (result ≡ (open_holding t140 red).number) × (receiver.new ≡ lent_holding (open_holding t140 red).receiver) }
{
    let opened = holding_boundary::open(t140, red);
    crate::store_opened(opened, HoldingRecord::default(), receiver)
}

// Stores what an accepted call made; a refused one leaves both records. The call's number.
fn store(
    made: Result<Advanced<HoldingRecord, HoldingStep>, Refusal>,
    receiver: &mut HoldingRecord,
    step: &mut HoldingStep,
) -> u8
    ensures { MatchResult made
        (λ m. (result ≡ 0) × (receiver.new ≡ m.receiver) × (step.new ≡ m.answer))
        (λ r. (result ≡ number r) × (receiver.new ≡ receiver.old) × (step.new ≡ step.old)) }
{
    match made {
        Ok(made) => {
            *step = made.answer;
            *receiver = made.receiver;
            0
        }
        Err(refusal) => u8::from(refusal),
    }
}

// A packet at a clock, with what is lent as the packet held: 0 where the call is accepted, else the refusal's number, and both
// records stay.
#[unsafe(no_mangle)]
pub extern "C" fn stewpigeon_holding_receiver_step(
    receiver: &mut HoldingRecord,
    clock: u64,
    held: &[u8],
    packet: &[u8],
    step: &mut HoldingStep,
) -> u8
    ensures { (result ≡ answer_number (holding_step (held_holding receiver.old) clock held.now (some packet.now)).answer) × (receiver.new ≡ receiver_behind (holding_step (held_holding receiver.old) clock held.now (some packet.now)) receiver.old) × (step.new ≡ step_behind (holding_step (held_holding receiver.old) clock held.now (some packet.now)).answer step.old) }
{
    let made = holding_boundary::step(*receiver, clock, held, packet);
    store(made, receiver, step)
}

// A clock without a packet: likewise.
#[unsafe(no_mangle)]
pub extern "C" fn stewpigeon_holding_receiver_wait(
    receiver: &mut HoldingRecord,
    clock: u64,
    held: &[u8],
    step: &mut HoldingStep,
) -> u8
    ensures { (result ≡ answer_number (holding_step (held_holding receiver.old) clock held.now none).answer) × (receiver.new ≡ receiver_behind (holding_step (held_holding receiver.old) clock held.now none) receiver.old) × (step.new ≡ step_behind (holding_step (held_holding receiver.old) clock held.now none).answer step.old) }
{
    let made = holding_boundary::wait(*receiver, clock, held);
    store(made, receiver, step)
}
