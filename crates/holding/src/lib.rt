// A receiver that may hold one packet (02, request 5): a forward packet that would cause loss waits for those before it. The packet
// itself stays with the caller, who lends it back with each call.
#![tactic(auto)]

mod arriving;
mod calling;

ghost use Rattle.std.specs.Prelude.{◌≡◌};
ghost use Rattle.std.proofs.Math.Option.{none, some};
ghost use Rattle.holding_spec.specs.Opening.{open_holding};
ghost use Rattle.holding_spec.specs.Answers.{bytes_of};
ghost use Rattle.holding_spec.specs.Step.{holding_step, text_handed};
ghost use Rattle.holding.specs.View.{holding_of, which_of, answered, opening, advanced, handed, handed_of};
ghost use Rattle.holding_spec.specs.Record.{new_bytes};

use packet::Refusal;
use receiver::{Advanced, Given, Receiver, Stepped};

// The packet that is held, which stays with the caller: its number, and the clock of its arrival.
#[derive(Clone, Copy)]
pub struct Held {
    pub number: u16,
    pub arrival: u64,
}

// A receiver, of the packets handed out; the packet that is held, if one is; and the latest clock. What C lends beside a cleared flag
// is left out here, since no accepted call keeps it.
#[derive(Clone, Copy)]
pub struct HoldingReceiver {
    pub receiver: Receiver,
    pub held: Option<Held>,
    pub clock: u64,
}

// Which of a call's two packets: the one that is held, or the new one.
#[derive(Clone, Copy, PartialEq, Eq)]
pub enum Which {
    Neither,
    Held,
    New,
}

// What an accepted call answers, and with it which packet to keep. `Waits`, a late packet and a jump give nothing. `Gives` is of
// packet `of`; with `again` the new packet is to be given again. A break is the new packet's, and none is kept.
#[derive(Clone, Copy)]
pub enum HoldingAnswer {
    Waits {
        distance: i16,
        keep: Which,
    },
    Late {
        distance: i16,
        keep: Which,
    },
    Jump {
        distance: i16,
        keep: Which,
    },
    Break(Given),
    Gives {
        of: Which,
        keep: Which,
        again: bool,
        given: Given,
    },
}

impl HoldingReceiver {
    // How long a packet is held, in ms.
    pub const LONGEST_HOLD: u64 = 1000;

    pub fn open(t140: u8, red: u8) -> Result<HoldingReceiver, Refusal>
        ensures { opening result ≡ open_holding t140 red }
    {
        let receiver = Receiver::open(t140, red)?;
        Ok(HoldingReceiver {
            receiver,
            held: None,
            clock: 0,
        })
    }

    // A packet at a clock, with what is lent as the packet held: the receiver for the next call, the answer and the text, a part of
    // either the held packet or the new one.
    pub fn step<'a>(
        self,
        clock: u64,
        held: &'a [u8],
        packet: &'a [u8],
    ) -> Result<Stepped<'a, HoldingReceiver, HoldingAnswer>, Refusal>
        ensures { handed (holding_of self) result ≡ handed_of (holding_of self) clock held.now (some packet.now) }
    {
        let Advanced { receiver, answer } = self.advance(clock, held, packet)?;
        Ok(Stepped {
            receiver,
            answer,
            text: text(held, packet, Ok(answer)),
        })
    }

    // A clock without a packet.
    pub fn wait<'a>(
        self,
        clock: u64,
        held: &'a [u8],
    ) -> Result<Stepped<'a, HoldingReceiver, HoldingAnswer>, Refusal>
        ensures { handed (holding_of self) result ≡ handed_of (holding_of self) clock held.now none }
    {
        let Advanced { receiver, answer } = self.advance_clock(clock, held)?;
        Ok(Stepped {
            receiver,
            answer,
            text: text_of_held(held, Ok(answer)),
        })
    }

    // The step without its text.
    pub fn advance(
        self,
        clock: u64,
        held: &[u8],
        packet: &[u8],
    ) -> Result<Advanced<HoldingReceiver, HoldingAnswer>, Refusal>
        ensures { advanced (holding_of self) result ≡ holding_step (holding_of self) clock held.now (some packet.now) }
    {
        calling::judge(self, clock)?;
        match self.held {
            Some(of) => calling::step_behind(self.receiver, of, clock, held, packet),
            None => calling::step_alone(self.receiver, clock, packet),
        }
    }

    // The wait without its text.
    pub fn advance_clock(
        self,
        clock: u64,
        held: &[u8],
    ) -> Result<Advanced<HoldingReceiver, HoldingAnswer>, Refusal>
        ensures { advanced (holding_of self) result ≡ holding_step (holding_of self) clock held.now none }
    {
        calling::judge(self, clock)?;
        match self.held {
            Some(of) => calling::wait_behind(self.receiver, of, clock, held),
            None => Ok(Advanced {
                receiver: HoldingReceiver { clock, ..self },
                answer: HoldingAnswer::Waits {
                    distance: 0,
                    keep: Which::Neither,
                },
            }),
        }
    }
}

// The text that an answer hands out, of the packets that were lent.
pub fn text<'a>(
    held: &'a [u8],
    packet: &'a [u8],
    answer: Result<HoldingAnswer, Refusal>,
) -> &'a [u8]
    ensures { result.now ≡ text_handed held.now packet.now (answered answer) }
{
    match answer {
        Ok(HoldingAnswer::Break(given)) => packet::part(packet, given.from, given.to),
        Ok(HoldingAnswer::Gives { of, given, .. }) => packet::part(
            bytes_of(of, held, packet),
            given.from,
            given.to,
        ),
        _ => &held[..0],
    }
}

// The same where no packet arrived.
pub fn text_of_held(held: &[u8], answer: Result<HoldingAnswer, Refusal>) -> &[u8]
    ensures { result.now ≡ text_handed held.now (new_bytes none) (answered answer) }
{
    text(held, &held[..0], answer)
}

// The bytes of either the held packet or the new one.
fn bytes_of<'a>(of: Which, held: &'a [u8], packet: &'a [u8]) -> &'a [u8]
    ensures { result.now ≡ bytes_of (which_of of) held.now packet.now }
{
    match of {
        Which::Neither => &held[..0],
        Which::Held => held,
        Which::New => packet,
    }
}
