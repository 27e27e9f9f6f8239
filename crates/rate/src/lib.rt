// How many characters may leave, by the times of the last ones, in a log lent to a sender.
#![tactic(auto)]

ghost use Rattle.std.specs.Prelude.{◌≡◌, length, ◌≤◌, ◌<◌, min};
ghost use Rattle.sender_spec.specs.Rate.{fits, allowed};
ghost use Rattle.rate.specs.Circle.{slots_of, log_size, times_back, times_in, spent_in, pace_after};

use settings::Settings;

// The lent times, in a circle of slots.
#[derive(Clone, Copy)]
pub struct Log {}

impl Log {
    // No more characters than there are slots leave within so many ms, both ends included.
    pub const WINDOW: u64 = 10000;

    pub const SIZE: usize = 10 * Settings::HIGHEST_RATE;
}

// The slots of a rate: ten for each character per second.
fn slots_of(rate: usize) -> usize
    ensures { (result ≡ slots_of rate) × (result ≤ 1000) }
{
    10 * rate.min(Settings::HIGHEST_RATE)
}

// Whether so many characters may leave: the last would take an empty slot, or one whose time lies before the window.
fn may_leave(
    slots: usize,
    log: &[u64; Log::SIZE],
    at: usize,
    used: usize,
    clock: u64,
    characters: usize,
) -> bool
    requires { (slots ≤ 1000) × (at < slots) × (0 < characters) × (characters ≤ slots) }
    ensures { result ≡ fits slots (times_back slots log.now at (min used slots)) clock characters }
{
    if used <= slots - characters {
        return true;
    }
    let slot = circle::around(slots, at + characters - 1);
    Log::WINDOW < clock.saturating_sub(log[slot])
}

// The next slot, and how many were used.
#[repr(C)]
#[derive(Clone, Copy, Default)]
pub struct Pace {
    pub next: usize,
    pub used: usize,
}

impl Pace {
    // The most of so many characters that may leave at the clock.
    pub fn allowed(
        self,
        rate: usize,
        log: &[u64; Log::SIZE],
        clock: u64,
        characters: usize,
    ) -> usize
        ensures { result ≡ allowed (slots_of rate) (times_in (slots_of rate) log.now self.next self.used) clock characters }
    {
        let slots = slots_of(rate);
        let most = characters.min(slots);
        if self.used <= slots - most {
            return most;
        }
        let at = circle::place(slots, self.next);
        for fewer in (1..=most).rev() {
            if may_leave(slots, log, at, self.used, clock, fewer) {
                return fewer;
            }
        }
        0
    }

    // Writes the clock to the slots of so many characters; the pace after them. So many times are lent.
    pub fn spend(
        self,
        rate: usize,
        log: &mut [u64; Log::SIZE],
        clock: u64,
        characters: usize,
    ) -> Pace
        ensures { (result ≡ pace_after self rate characters) × (log.new ≡ spent_in (slots_of rate) log.old self.next clock characters) × (length log.old ≡ log_size) }
    {
        let slots = slots_of(rate);
        let more = characters.min(slots);
        let mut next = circle::place(slots, self.next);
        for _ in 0..more {
            log[next] = clock;
            next = circle::after(slots, next);
        }
        let used = self.used.saturating_add(more).min(slots);
        Pace { next, used }
    }
}
