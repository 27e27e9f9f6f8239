// The step of a packet that was read.
ghost use Rattle.std.specs.Prelude.{◌≡◌, ◌≤◌};
ghost use Rattle.packet_spec.specs.Limits.{level};
ghost use Rattle.delivery.specs.Course as Course;
ghost use Rattle.delivery.specs.Course.{forward};
ghost use Rattle.delivery.specs.Numbers as Numbers;
ghost use Rattle.receiver_spec.specs.Step.{moved_to};
ghost use Rattle.receiver.specs.Internal.Accepted.{followed, leapt, later_by, later_accepted, accepted_step, gave_step};
ghost use Rattle.receiver.specs.View.{receiver_of, step_made};

use crate::{Advanced, Answer, Given, Receiver};
use packet::Packet;

// A packet that was read, with its bytes, and the receiver that it comes to.
#[derive(Clone, Copy)]
pub struct Arrived<'a> {
    pub receiver: Receiver,
    pub bytes: &'a [u8],
    pub packet: Packet,
    ghost few_older: { packet.count ≤ level },
}

fn next(sequence: u16) -> u16
    ensures { result ≡ Numbers.next sequence }
{
    sequence.wrapping_add(1)
}

impl Arrived<'_> {
    // The receiver after a packet that gives its text: the next number is expected, and none is kept.
    fn moved(self) -> Receiver
        ensures { receiver_of result ≡ moved_to (receiver_of self.entry.receiver) self.entry.packet.source self.entry.packet.sequence }
    {
        Receiver {
            has_source: true,
            has_kept: false,
            source: self.packet.source,
            expected: next(self.packet.sequence),
            kept: 0,
            ..self.receiver
        }
    }

    // A forward packet: its last `wanted` older blocks and its primary are given.
    #[tactic(auto, using(packet_spec::proofs::Limits::level_most))]
    fn follow(self, loss: u16, distance: i16, wanted: usize) -> Advanced<Receiver, Answer>
        requires { wanted ≤ self.packet.count }
        ensures { step_made result ≡ followed (receiver_of self.entry.receiver) self.entry.bytes.now self.entry.packet loss distance wanted }
    {
        let from = blocks::start_of(self.bytes, self.packet, self.packet.count - wanted);
        Advanced {
            receiver: self.moved(),
            answer: Answer::Forward(Given {
                loss,
                distance,
                older: self.packet.count,
                given: wanted + 1,
                from,
                to: self.packet.end,
            }),
        }
    }

    // The same by its distance: the last min(d, r) older blocks, and marks for what it lacks.
    fn follow_at(self) -> Advanced<Receiver, Answer>
        ensures { step_made result ≡ later_by forward (receiver_of self.entry.receiver) self.entry.bytes.now self.entry.packet (Course.distance self.entry.packet.sequence self.entry.receiver.expected) }
    {
        let d = usize::from(self.receiver.ahead(self.packet.sequence));
        // `as`: it is proved to fit, where TryFrom would bring an error that cannot come
        let loss = d.saturating_sub(self.packet.count) as u16;
        let wanted = d.min(self.packet.count);
        self.follow(loss, self.receiver.distance(self.packet.sequence), wanted)
    }

    // A packet too far from the expected number: a break where its number is the one kept, else a jump, which keeps the next.
    #[tactic(auto, using(packet_spec::proofs::Limits::level_most))]
    fn leap(self, distance: i16) -> Advanced<Receiver, Answer>
        ensures { step_made result ≡ leapt (receiver_of self.entry.receiver) self.entry.packet distance }
    {
        if self.receiver.has_kept && self.packet.sequence == self.receiver.kept {
            Advanced {
                receiver: self.moved(),
                answer: Answer::Break(Given {
                    loss: 0,
                    distance: 0,
                    older: self.packet.count,
                    given: self.packet.count + 1,
                    from: self.packet.first,
                    to: self.packet.end,
                }),
            }
        } else {
            Advanced {
                receiver: Receiver {
                    has_kept: true,
                    kept: next(self.packet.sequence),
                    ..self.receiver
                },
                answer: Answer::Jump(distance),
            }
        }
    }

    // A packet after the first.
    fn accept_later(self) -> Advanced<Receiver, Answer>
        ensures { step_made result ≡ later_accepted (receiver_of self.entry.receiver) self.entry.bytes.now self.entry.packet (Course.distance self.entry.packet.sequence self.entry.receiver.expected) }
    {
        let distance = self.receiver.distance(self.packet.sequence);
        if (0..=Receiver::LAST_FORWARD).contains(&distance) {
            self.follow_at()
        } else if (Receiver::FIRST_LATE..0).contains(&distance) {
            Advanced {
                receiver: self.receiver,
                answer: Answer::Late(distance),
            }
        } else {
            self.leap(distance)
        }
    }

    // The first packet gives all its blocks.
    pub fn accept(self) -> Advanced<Receiver, Answer>
        ensures { step_made result ≡ accepted_step (receiver_of self.entry.receiver) self.entry.bytes.now self.entry.packet }
    {
        if self.receiver.has_source {
            self.accept_later()
        } else {
            self.follow(0, 0, self.packet.count)
        }
    }

    // A packet that goes by its distance alone, as a forward one does; the number kept stays.
    pub fn give(self) -> Advanced<Receiver, Answer>
        ensures { step_made result ≡ gave_step (receiver_of self.entry.receiver) self.entry.bytes.now self.entry.packet }
    {
        let Advanced { receiver, answer } = self.follow_at();
        Advanced {
            receiver: Receiver {
                has_kept: self.receiver.has_kept,
                kept: self.receiver.kept,
                ..receiver
            },
            answer,
        }
    }
}
