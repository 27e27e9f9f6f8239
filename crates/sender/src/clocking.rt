// What a clock call that is ready sends.
ghost use Rattle.std.specs.Prelude.{◌≡◌, length};
ghost use Rattle.writer.specs.Draft.{answer_by};
ghost use Rattle.sender.specs.Clocking.{taken_bytes, draft_of, record_behind, Sends};

use crate::Sender;
use rate::Pace;
use slots::{Texts, Waiting};
use writer::{Draft, Heading};

// What a call that is ready comes to: the packet's length, 0 where there is nothing to send, how many bytes and characters it takes
// of what waits, and the pace that it leaves.
#[derive(Clone, Copy)]
pub struct Sending {
    pub size: usize,
    pub len: usize,
    pub characters: usize,
    pub pace: Pace,
}

fn draft(sender: Sender, clock: u64, marker: bool, len: usize) -> Draft
    ensures { result ≡ draft_of sender clock marker len }
{
    let settings = sender.settings;
    Draft {
        heading: Heading {
            level: settings.level,
            t140: settings.t140,
            red: settings.red,
            marker,
            sequence: sender.progress.next,
            timestamp: settings::timestamp(settings.timestamp, clock),
            source: settings.source,
        },
        clock,
        kept: sender.kept,
        room: sender.waiting.room,
        len,
    }
}

// How many bytes a packet takes, by how many of the characters that wait may go.
fn taken(waiting: Waiting, texts: &[u8; Sender::TEXTS], characters: usize, going: usize) -> usize
    ensures { result ≡ taken_bytes texts.now waiting characters going }
{
    let len = waiting.len.min(Texts::ROOM);
    if going == characters {
        return len;
    }
    let from = slots::room_of(waiting.room) * Texts::ROOM;
    text::front(&texts[from..from + len], going)
}

// Writes the packet of a call that is ready, where there is something to send and the space holds it.
pub fn put(
    sender: Sender,
    texts: &mut [u8; Sender::TEXTS],
    log: &mut [u64; Sender::LOG],
    clock: u64,
    packet: &mut [u8],
) -> Sending
    ensures { Sends sender texts.old log.old clock packet.old result.size (record_behind (answer_by result.size (length packet.old)) sender clock result.len result.characters result.pace) texts.new log.new packet.new }
{
    let settings = sender.settings;
    let waiting = sender.waiting;
    let pace = sender.pace;
    let characters = waiting.characters.min(Texts::ROOM);
    let going = pace.allowed(settings.rate, log, clock, characters);
    let len = taken(waiting, texts, characters, going);
    let marker = settings::marker(sender.progress, settings.buffering, len, waiting.since);
    let draft = draft(sender, clock, marker, len);
    let size = writer::put_packet(packet, texts, draft);
    let mut sending = Sending {
        size,
        len,
        characters: going,
        pace,
    };
    if matches!(writer::answer_by(size, packet.len()), Ok(Some(_))) {
        sending.pace = pace.spend(settings.rate, log, clock, going);
        waiting.keep_rest(texts, len);
    }
    sending
}
