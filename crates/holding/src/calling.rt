// A call's checks, and the packets as they are read.
ghost use Rattle.std.specs.Prelude.{◌≡◌, ℕ};
ghost use Rattle.packet.specs.Refusal.{outcome_number};
ghost use Rattle.packet.specs.Places.{numbered, read_of};
ghost use Rattle.receiver_spec.specs.State.{source_expected};
ghost use Rattle.receiver.specs.View.{receiver_of};
ghost use Rattle.holding_spec.specs.State.{holds_none, holds_one};
ghost use Rattle.holding.specs.View.{holding_of, advanced};
ghost use Rattle.holding.specs.Internal.Calling.{first_number, read_back, step_alone, step_behind, wait_behind};

use crate::arriving::{self, Read};
use crate::{Held, HoldingAnswer, HoldingReceiver};
use packet::{Packet, Refusal};
use receiver::{Advanced, Receiver};

// The checks before any packet is looked at: 3, then 5.
pub fn judge(holder: HoldingReceiver, clock: u64) -> Result<(), Refusal>
    ensures { outcome_number result ≡ first_number (holding_of holder) clock }
{
    if header::types_bad(holder.receiver.t140, holder.receiver.red) {
        Err(Refusal::PayloadTypes)
    } else if clock < holder.clock {
        Err(Refusal::Clock)
    } else {
        Ok(())
    }
}

// A packet as the receiver's step reads it.
fn read(receiver: Receiver, packet: &[u8]) -> Result<Packet, Refusal>
    ensures { numbered result ≡ read_of (source_expected (receiver_of receiver)) receiver.t140 receiver.red packet.now }
{
    let expected = receiver::source_expected(receiver.has_source, receiver.source);
    reader::read_from(expected, receiver.t140, receiver.red, packet)
}

// The packet that is held, as it is lent back: 27 where it is refused or has another number.
fn read_back(receiver: Receiver, held: u16, lent: &[u8]) -> Result<Packet, Refusal>
    ensures { numbered result ≡ read_back (receiver_of receiver) held lent.now }
{
    match read(receiver, lent) {
        Err(_) => Err(Refusal::HeldPacket),
        Ok(packet) if packet.sequence != held => Err(Refusal::HeldPacket),
        Ok(packet) => Ok(packet),
    }
}

// A packet, with none held.
pub fn step_alone(
    receiver: Receiver,
    clock: u64,
    packet: &[u8],
) -> Result<Advanced<HoldingReceiver, HoldingAnswer>, Refusal>
    ensures { (t : ℕ) → advanced (holds_none (receiver_of receiver) t) result ≡ step_alone (holds_none (receiver_of receiver) t) clock packet.now }
{
    let new = read(receiver, packet)?;
    let new = Read {
        bytes: packet,
        packet: new,
    };
    arriving::arrive_alone(receiver, clock, new)
}

// A packet, with one held.
pub fn step_behind(
    receiver: Receiver,
    held: Held,
    clock: u64,
    lent: &[u8],
    packet: &[u8],
) -> Result<Advanced<HoldingReceiver, HoldingAnswer>, Refusal>
    ensures { (t : ℕ) → advanced (holds_one (receiver_of receiver) held.number held.arrival t) result ≡ step_behind (holds_one (receiver_of receiver) held.number held.arrival t) clock lent.now packet.now }
{
    let back = read_back(receiver, held.number, lent)?;
    let back = Read {
        bytes: lent,
        packet: back,
    };
    let new = read(receiver, packet)?;
    let new = Read {
        bytes: packet,
        packet: new,
    };
    arriving::arrive_behind(receiver, held.arrival, clock, back, new)
}

// No packet, with one held.
pub fn wait_behind(
    receiver: Receiver,
    held: Held,
    clock: u64,
    lent: &[u8],
) -> Result<Advanced<HoldingReceiver, HoldingAnswer>, Refusal>
    ensures { (t : ℕ) → advanced (holds_one (receiver_of receiver) held.number held.arrival t) result ≡ wait_behind (holds_one (receiver_of receiver) held.number held.arrival t) clock lent.now }
{
    let back = read_back(receiver, held.number, lent)?;
    let back = Read {
        bytes: lent,
        packet: back,
    };
    arriving::wait_behind(receiver, held.arrival, clock, back)
}
