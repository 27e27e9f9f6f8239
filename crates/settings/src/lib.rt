// What a sender is opened with, and how far it has come: the checks of the settings, and what a packet takes from both.
#![tactic(auto)]

ghost use Rattle.std.specs.Prelude.{◌≡◌, ◌+◌, ◌%◌};
ghost use Rattle.base.specs.Flags.{is_set};
ghost use Rattle.packet.specs.Refusal.{outcome_number};
ghost use Rattle.sender_spec.specs.Settings.{settings_number};
ghost use Rattle.settings.specs.State.{settings_of, progress_of, marker_of, progress_behind};
ghost use Rattle.settings.specs.Judging.{judged, judgement_of};

use packet::{Packet, Refusal};

// What a sender is opened with: the number of repeats, the buffering time in ms, the rate in characters per second, the two
// payload types, the first sequence number, the first timestamp and the source.
#[repr(C)]
#[derive(Clone, Copy, Default)]
pub struct Settings {
    pub level: usize,
    pub buffering: u64,
    pub rate: usize,
    pub t140: u8,
    pub red: u8,
    pub sequence: u16,
    pub timestamp: u32,
    pub source: u32,
}

impl Settings {
    // The usual buffering time, in ms.
    pub const BUFFERING: u64 = 300;

    pub const LONGEST_BUFFERING: u64 = 500;

    // The usual rate, in characters per second.
    pub const RATE: usize = 30;

    pub const HIGHEST_RATE: usize = 100;
}

// Whether a packet was sent, when the last one was, when the last one with text was, and the next sequence number.
#[repr(C)]
#[derive(Clone, Copy, Default)]
pub struct Progress {
    // 0 until a packet was sent; every other value counts as 1: a flag of C's record, which holds any byte.
    pub sent: u8,
    pub last: u64,
    pub last_text: u64,
    pub next: u16,
}

// What a clock call that is not refused comes to, before the texts are looked at.
#[derive(Clone, Copy, PartialEq, Eq)]
pub enum Due {
    // No packet is due yet.
    Early,
    // None was sent yet: the first packet is due if it has text.
    First,
    // The buffering time has passed since the last: one more is due if it has text.
    Later,
}

// The refusal that the settings call for.
#[tactic(auto, unfolding(packet_spec::specs::Limits::level, sender_spec::specs::Settings::settings_number))]
pub fn settings_outcome(settings: Settings) -> Result<(), Refusal>
    ensures { outcome_number result ≡ settings_number (settings_of settings) }
{
    if Packet::LEVEL < settings.level {
        return Err(Refusal::Level);
    }
    if !(1..=Settings::LONGEST_BUFFERING).contains(&settings.buffering) {
        return Err(Refusal::Buffering);
    }
    if header::types_bad(settings.t140, settings.red) {
        return Err(Refusal::PayloadTypes);
    }
    if !(1..=Settings::HIGHEST_RATE).contains(&settings.rate) {
        return Err(Refusal::Rate);
    }
    Ok(())
}

// Judges the clock that is given to a sender with these settings, this latest accepted clock and this progress.
pub fn judge(
    settings: Settings,
    latest: u64,
    progress: Progress,
    clock: u64,
) -> Result<Due, Refusal>
    ensures { judged result ≡ judgement_of (settings_of settings) latest (progress_of progress) clock }
{
    settings_outcome(settings)?;
    if clock < latest {
        return Err(Refusal::Clock);
    }
    if !progress.has_sent() {
        Ok(Due::First)
    } else if settings.buffering <= clock.saturating_sub(progress.last) {
        Ok(Due::Later)
    } else {
        Ok(Due::Early)
    }
}

// M of a packet, by how many bytes it takes of what waits, and when the first of them was offered.
pub fn marker(progress: Progress, buffering: u64, len: usize, since: u64) -> bool
    ensures { result ≡ marker_of progress buffering len since }
{
    !progress.has_sent() || 0 < len && buffering < since.saturating_sub(progress.last_text)
}

// The first timestamp and the clock, wrapped.
pub fn timestamp(first: u32, clock: u64) -> u32
    ensures { result ≡ (first + clock) % 4294967296 }
{
    // `as`: it is proved to fit, where TryFrom would bring an error that cannot come
    first.wrapping_add((clock % 4294967296) as u32)
}

impl Progress {
    // Whether a packet was sent.
    pub fn has_sent(self) -> bool
        ensures { result ≡ is_set self.sent }
    {
        self.sent != 0
    }

    // After a packet that takes so many bytes.
    pub fn after(self, len: usize, clock: u64) -> Progress
        ensures { result ≡ progress_behind self len clock }
    {
        Progress {
            sent: 1,
            last: clock,
            last_text: if 0 < len { clock } else { self.last_text },
            next: self.next.wrapping_add(1),
        }
    }
}
