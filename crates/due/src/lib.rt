// What is due of a transcript, and how it is given.
#![tactic(auto)]

ghost use Rattle.std.specs.Prelude.{◌≡◌, length};
ghost use Rattle.base.specs.Arrays.{over};
ghost use Rattle.receiver.specs.View.{answered};
ghost use Rattle.printing.specs.Fitting.{due_fitting};
ghost use Rattle.due.specs.Due.{empty_due, line_due, due_of, none_due, due_within, text_due, left_of};

use marks::LossMark;
use packet::Refusal;
use parts::Part;
use receiver::Answer;

// So many marks, then the bytes from `from` up to `to` of a packet that is lent with it.
#[derive(Clone, Copy, Default)]
pub struct Due {
    pub marks: usize,
    pub from: usize,
    pub to: usize,
}

// What is still due, and how many bytes of the space were filled.
#[derive(Clone, Copy)]
pub struct Gave {
    pub due: Due,
    pub count: usize,
}

impl Due {
    // Nothing is due.
    pub fn none() -> Due
        ensures { result ≡ empty_due }
    {
        Due::default()
    }

    // A line of so many bytes with which the packet begins.
    pub fn line(len: usize) -> Due
        ensures { result ≡ line_due len }
    {
        Due {
            to: len,
            ..Due::default()
        }
    }

    // What the answer to a packet gives.
    pub fn of(answer: Result<Answer, Refusal>) -> Due
        ensures { result ≡ due_of (answered answer) }
    {
        match answer {
            Ok(Answer::Break(given) | Answer::Forward(given)) => Due {
                marks: usize::from(given.loss),
                from: given.from,
                to: given.to,
            },
            Ok(Answer::Late(_) | Answer::Jump(_)) | Err(_) => Due::none(),
        }
    }

    pub fn is_none(self) -> bool
        ensures { result ≡ none_due self }
    {
        self.marks == 0 && self.to <= self.from
    }

    // Whether the text lies within the longest packet.
    pub fn is_within(self) -> bool
        ensures { result ≡ due_within self }
    {
        self.from <= self.to && self.to <= Part::LONGEST
    }

    // Gives into the front of the space: whole marks, then text.
    pub fn give(self, packet: &[u8], space: &mut [u8]) -> Gave
        ensures due_value { (result.due ≡ left_of self packet.now (length space.old)) × (result.count ≡ length (due_fitting self.marks (text_due self packet.now) (length space.old))) }
        ensures space_after { space.new ≡ over (due_fitting self.marks (text_due self packet.now) (length space.old)) space.old }
    {
        let text = packet::part(packet, self.from, self.to);
        let put = printing::put_due(self.marks, text, space);
        Gave {
            due: Due {
                marks: self.marks - put.marks,
                from: self.from + put.text,
                ..self
            },
            count: LossMark::SIZE * put.marks + put.text,
        }
    }
}
