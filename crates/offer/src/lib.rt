// Judges text that is offered to a sender, and writes it after what waits.
#![tactic(auto)]

ghost use Rattle.std.specs.Prelude.{◌≡◌};
ghost use Rattle.offer.specs.Offer.{Judges};

use packet::Refusal;
use settings::Settings;
use slots::{Texts, Waiting};

// Judges an offer to a sender with these settings, this latest accepted clock and what waits; where it is accepted, its text is
// written after what waits. So many characters join.
#[tactic(auto, using(packet::proofs::Names::number_positive, slots::proofs::Slots::waiting_length), unfolding(packet_spec::specs::Limits::level, sender_spec::specs::Calls::offer_of))]
pub fn judge(
    settings: Settings,
    latest: u64,
    waiting: Waiting,
    clock: u64,
    text: &[u8],
    texts: &mut [u8; Texts::SIZE],
) -> Result<usize, Refusal>
    ensures { Judges settings latest waiting.room waiting.len clock text.now texts.old result texts.new }
{
    settings::settings_outcome(settings)?;
    if clock < latest {
        return Err(Refusal::Clock);
    }
    if text.len() == 0 {
        return Err(Refusal::NoText);
    }
    let Ok(characters) = text::text_of(text) else {
        return Err(Refusal::Text);
    };
    let len = waiting.len.min(Texts::ROOM);
    if Texts::ROOM < len + text.len() {
        return Err(Refusal::WaitingRoom);
    }
    let room = slots::room_of(waiting.room);
    let at = room * Texts::ROOM + len;
    texts[at..at + text.len()].copy_from_slice(text);
    Ok(characters)
}
