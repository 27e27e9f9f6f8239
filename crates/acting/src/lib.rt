// What was read of a journal is acted upon: an open, a packet, the end or a break.
#![tactic(auto)]

ghost use Rattle.std.specs.Prelude.{◌≡◌};
ghost use Rattle.journal_spec.specs.Lines.{broken_line};
ghost use Rattle.counts.specs.Counts.{line_of};
ghost use Rattle.acting.specs.Internal.Acting.{OpensReceiver, Steps, PutsLine, Closes, Acts};

use counts::Counts;
use due::Due;
use parts::Part;
use receiver::Receiver;

// The receiver and the counts from there on, and what is due. Before a journal's open the receiver is all zeros, and refuses every
// packet.
#[derive(Clone, Copy)]
pub struct Acted {
    pub receiver: Receiver,
    pub counts: Counts,
    pub due: Due,
}

fn open(counts: Counts, t140: u8, red: u8) -> Acted
    ensures { OpensReceiver counts t140 red result }
{
    Acted {
        receiver: Receiver::open(t140, red).unwrap_or_default(),
        counts,
        due: Due::none(),
    }
}

// A packet is whole: the receiver's step answers, and the marks and the text of the answer are due.
fn step(mut receiver: Receiver, counts: Counts, packet: &[u8]) -> Acted
    ensures { Steps receiver counts packet.now result }
{
    let answer = receiver.step_in_place(packet);
    Acted {
        receiver,
        counts: counts.with(answer),
        due: Due::of(answer),
    }
}

// The line of a broken journal is due.
pub fn break_off(packet: &mut [u8]) -> Due
    ensures { PutsLine broken_line packet.old result packet.new }
{
    Due::line(closing::put_broken(packet))
}

// The line of counts is due.
fn finish(counts: Counts, packet: &mut [u8]) -> Due
    ensures { PutsLine (line_of counts) packet.old result packet.new }
{
    let to = closing::put_counts(
        counts.packets,
        counts.late,
        counts.lost,
        counts.refused,
        packet,
    );
    Due::line(to)
}

// Where reading goes on, nothing is done. What is given is parts of a transcript, which stands above. The packet's `size` bytes are at
// the front of the lent buffer, and a line goes there.
pub fn act(part: Part, size: usize, receiver: Receiver, counts: Counts, packet: &mut [u8]) -> Acted
    ensures { Acts part size receiver counts packet.old result packet.new }
{
    match part {
        Part::Packet => step(receiver, counts, packet::part(packet, 0, size)),
        Part::Opened(t140, red) => open(counts, t140, red),
        Part::Ended => Acted {
            receiver,
            counts,
            due: finish(counts, packet),
        },
        Part::Broken => Acted {
            receiver,
            counts,
            due: break_off(packet),
        },
        _ => Acted {
            receiver,
            counts,
            due: Due::none(),
        },
    }
}
