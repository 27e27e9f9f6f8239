// The block headers of a payload (RFC 2198, section 3).
#![tactic(auto)]

ghost use Rattle.std.specs.Prelude.{◌≡◌, [], ◌&&◌, ◌+◌, ◌≤◌, ltb, length, drop};
ghost use Rattle.std.proofs.Math.Seq.{slice};
ghost use Rattle.packet_spec.specs.Limits.{level};
ghost use Rattle.packet_spec.specs.Redundancy as Heads;
ghost use Rattle.block_headers.specs.Headers.{seen_head, head_at};
ghost use Rattle.block_headers.specs.Internal.Seen.{headers_seen, seen_before, headers_of};

use packet::{Packet, Refusal};

// An older block's header.
#[derive(Clone, Copy)]
pub struct Head {
    pub offset: u16,
    pub len: u16,
}

// What the headers say: how many older blocks there are, where the oldest starts, where the primary does, after all of them, and
// whether each is older than the next.
#[derive(Clone, Copy)]
pub struct Headers {
    pub count: usize,
    pub first: usize,
    pub primary: usize,
    pub ages_fall: bool,
}

fn read_head(packet: &[u8], at: usize) -> Head
    requires { at + 4 ≤ length packet.now }
    ensures { (seen_head result ≡ Heads.head_of (drop at packet.now)) × (result.offset ≤ 16383) × (result.len ≤ 1023) }
{
    Head {
        offset: u16::from_be_bytes([packet[at + 1], packet[at + 2]]) / 4,
        len: u16::from_be_bytes([packet[at + 2] % 4, packet[at + 3]]),
    }
}

// The older block's header at a place; zeros where it does not lie within the packet, as the definition has it.
pub fn head_at(packet: &[u8], at: usize) -> Head
    ensures { (seen_head result ≡ head_at packet.now at) × (result.len ≤ 1023) }
{
    if packet.len() < 4 || packet.len() - 4 < at {
        return Head { offset: 0, len: 0 };
    }
    read_head(packet, at)
}

// Ages that fall so far, to `last`, and then to `age`.
fn fall_to(fall: bool, last: u16, age: u16) -> bool
    ensures { result ≡ (fall && ltb age last) }
{
    fall && age < last
}

// Of a redundant payload.
#[tactic(auto, using(packet_spec::proofs::Limits::level_most))]
fn read_headers(t140: u8, packet: &[u8], from: usize, end: usize) -> Result<Headers, Refusal>
    requires { (from ≤ end) × (end ≤ length packet.now) }
    ensures { headers_seen result ≡ seen_before end (Heads.headers t140 level [] (slice from end packet.now)) }
{
    let mut count: usize = 0;
    let mut at = from;
    let mut total: usize = 0;
    let mut fall = true;
    // above every age of 14 bits
    let mut last: u16 = 16384;
    // no `for`: how many headers there are is told by the first byte of each, before it counts
    loop {
        if end <= at {
            return Err(Refusal::BlockHeaders);
        }
        let b = packet[at];
        if b < 128 {
            if b != t140 {
                return Err(Refusal::BlockType);
            }
            // the primary's age is 0
            let ages_fall = fall_to(fall, last, 0);
            let first = at + 1;
            return Ok(Headers {
                count,
                first,
                primary: first + total,
                ages_fall,
            });
        }
        if count == Packet::LEVEL {
            return Err(Refusal::BlockCount);
        }
        if end < at + 4 {
            return Err(Refusal::BlockHeaders);
        }
        if b - 128 != t140 {
            return Err(Refusal::BlockType);
        }
        let head = read_head(packet, at);
        fall = fall_to(fall, last, head.offset);
        last = head.offset;
        total += usize::from(head.len);
        count += 1;
        at += 4;
    }
}

// Reads the headers of the payload that lies from `from` up to `end`; there are none before a plain one.
pub fn read(
    plain: bool,
    t140: u8,
    packet: &[u8],
    from: usize,
    end: usize,
) -> Result<Headers, Refusal>
    ensures { headers_seen result ≡ headers_of plain t140 packet.now from end }
{
    if end < from || packet.len() < end {
        return Err(Refusal::BlockHeaders);
    }
    if plain {
        return Ok(Headers {
            count: 0,
            first: from,
            primary: from,
            ages_fall: true,
        });
    }
    read_headers(t140, packet, from, end)
}
