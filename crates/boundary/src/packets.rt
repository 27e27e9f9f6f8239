// A packet as callers in C hold it: with the place of each older block.
ghost use Rattle.std.specs.Prelude.{◌≡◌, ◌+◌, ◌*◌, ◌≤◌, length, drop};
ghost use Rattle.base.specs.Arrays.{filled};
ghost use Rattle.packet_spec.specs.Limits.{level};
ghost use Rattle.packet_spec.specs.Internal.Heads.{heads_in};
ghost use Rattle.boundary.specs.Packets.{none};
ghost use Rattle.boundary.specs.Internal.Places.{head_places, older_places, record_from};

use packet::Packet;

// An older block: its time offset, and where it lies in the packet.
#[repr(C)]
#[derive(Clone, Copy)]
pub struct Older {
    pub offset: u16,
    pub at: usize,
    pub len: usize,
}

// No block, as in a record after its last older block.
const NONE: Older = Older {
    offset: 0,
    at: 0,
    len: 0,
};

// What an accepted packet holds: the M bit, 0 or 1, its older blocks, oldest first, of which the first `count` count, and the
// primary from `primary` up to `end`. The array and its length are C's.
#[repr(C)]
#[derive(Clone, Copy)]
pub struct PacketRecord {
    pub marker: u8,
    pub sequence: u16,
    pub timestamp: u32,
    pub source: u32,
    pub count: usize,
    pub older: [Older; Packet::LEVEL],
    pub primary: usize,
    pub end: usize,
}

// The older blocks from `first` on, by their headers, which begin at `from`.
#[tactic(auto, unfolding(packet_spec::specs::Limits::level))]
fn older_at(bytes: &[u8], from: usize, first: usize, count: usize) -> [Older; Packet::LEVEL]
    requires { (count ≤ level) × (from + 4 * count ≤ length bytes.now) × (first ≤ length bytes.now) }
    ensures { result ≡ filled none level (head_places first (heads_in count (drop from bytes.now))) }
{
    let mut older = [NONE; Packet::LEVEL];
    let mut at = first;
    for (k, block) in older[..count].iter_mut().enumerate() {
        let head = block_headers::head_at(bytes, from + 4 * k);
        let len = usize::from(head.len);
        *block = Older {
            offset: head.offset,
            at,
            len,
        };
        at += len;
    }
    older
}

// The same by the places alone: the headers, and the primary's, of one byte, stand right before the oldest block. None where
// the places cannot be a packet's.
#[tactic(auto, unfolding(packet_spec::specs::Limits::level))]
fn older_before(bytes: &[u8], first: usize, count: usize) -> [Older; Packet::LEVEL]
    ensures { result ≡ filled none level (older_places bytes.now first count) }
{
    if bytes.len() < first || Packet::LEVEL < count || first < 4 * count + 1 {
        return [NONE; Packet::LEVEL];
    }
    let from = first - (4 * count + 1);
    older_at(bytes, from, first, count)
}

// The record of a packet that was read of these bytes.
pub fn record_of(bytes: &[u8], packet: Packet) -> PacketRecord
    ensures { result ≡ record_from bytes.now packet }
{
    PacketRecord {
        marker: packet.marker,
        sequence: packet.sequence,
        timestamp: packet.timestamp,
        source: packet.source,
        count: packet.count,
        older: older_before(bytes, packet.first, packet.count),
        primary: packet.primary,
        end: packet.end,
    }
}
