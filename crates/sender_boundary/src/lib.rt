// What the exported calls of the sender answer, in the numbers and records of their callers.
#![tactic(auto, unfolding(packet_spec::specs::Limits::level))]

ghost use Rattle.std.specs.Prelude.{◌≡◌, replicate};
ghost use Rattle.slots.specs.Slots.{texts_size};
ghost use Rattle.sender.specs.Opening.{Opens};
ghost use Rattle.writer.specs.Draft.{clock_answer};
ghost use Rattle.sender_boundary.specs.Calls.{settings_from, code_of};

use packet::Refusal;
use sender::Sender;
use settings::Settings;
use writer::Answer;

// Opens a sender, and makes the texts all zeros.
pub fn open(
    texts: &mut [u8; Sender::TEXTS],
    level: usize,
    buffering: u64,
    rate: usize,
    t140: u8,
    red: u8,
    sequence: u16,
    timestamp: u32,
    source: u32,
) -> Result<Sender, Refusal>
    ensures { Opens (settings_from level buffering rate t140 red sequence timestamp source) result × (texts.new ≡ replicate texts_size 0) }
{
    *texts = [0u8; Sender::TEXTS];
    let settings = Settings {
        level,
        buffering,
        rate,
        t140,
        red,
        sequence,
        timestamp,
        source,
    };
    Sender::open(settings)
}

// The clock call's answer as one number; 0 for a length that a signed number does not count, which no packet has.
pub fn code_of(answer: Answer) -> i64
    ensures { result ≡ code_of (clock_answer answer) }
{
    match answer {
        Err(refusal) => -i64::from(u8::from(refusal)),
        Ok(None) => 0,
        Ok(Some(len)) => i64::try_from(len).unwrap_or(0),
    }
}
