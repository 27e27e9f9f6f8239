// What a transcript's last line counts.
#![tactic(auto)]

ghost use Rattle.std.specs.Prelude.{◌≡◌};
ghost use Rattle.receiver.specs.View.{answered};
ghost use Rattle.counts.specs.Counts.{no_counts, counted, wrapped64, counts_fit, Counting};

use packet::Refusal;
use receiver::Answer;

// Of the packets read: those neither late nor refused, those late (jumps among them), the blocks lost, and those refused.
#[derive(Clone, Copy, Default)]
pub struct Counts {
    pub packets: u64,
    pub late: u64,
    pub lost: u64,
    pub refused: u64,
}

impl Counts {
    // So many bytes of a journal are read at most.
    pub const LIMIT: usize = 1099511627776;
    // A number of 16 bits says how many blocks a packet lost.
    const MOST_LOST: u64 = 65535;

    pub fn none() -> Counts
        ensures { result ≡ no_counts }
    {
        Counts::default()
    }

    // One answer more.
    pub fn with(self, answer: Result<Answer, Refusal>) -> Counts
        ensures value { result ≡ wrapped64 (counted (answered answer) self) }
        ensures counting { Counting (answered answer) self result }
    {
        match answer {
            Ok(Answer::Late(_) | Answer::Jump(_)) => Counts {
                late: self.late.wrapping_add(1),
                ..self
            },
            Ok(Answer::Break(given) | Answer::Forward(given)) => Counts {
                packets: self.packets.wrapping_add(1),
                lost: self.lost.wrapping_add(u64::from(given.loss)),
                ..self
            },
            Err(_) => Counts {
                refused: self.refused.wrapping_add(1),
                ..self
            },
        }
    }

    // Whether they can be those of a journal of which so many bytes may still be read.
    #[tactic(auto, unfolding(journal_spec::specs::Contents::limit))]
    pub fn fit(self, left: usize) -> bool
        ensures { result ≡ counts_fit self left }
    {
        // `as`: there is no From between usize and u64
        let read = Counts::LIMIT.saturating_sub(left) as u64;
        left <= Counts::LIMIT
            && self.packets <= read
            && self.late <= read
            && self.refused <= read
            && self.lost <= Counts::MOST_LOST * read
    }
}
