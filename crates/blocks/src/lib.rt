// The blocks of a payload (RFC 2198, section 3): where they lie, and whether their ages fall and they are text.
#![tactic(auto)]

mod judging;

ghost use Rattle.std.specs.Prelude.{◌≡◌, ◌+◌, ◌*◌, ◌≤◌, length, drop};
ghost use Rattle.std.proofs.Math.Seq.{slice};
ghost use Rattle.packet_spec.specs.Redundancy as Heads;
ghost use Rattle.packet_spec.specs.Redundancy.{total, ages_fall};
ghost use Rattle.packet_spec.specs.Internal.Heads.{heads_in};
ghost use Rattle.blocks.specs.Places.{start_counted_back, start_of, block_of};
ghost use Rattle.blocks.specs.Internal.Seen.{blocks_seen, seen_behind, blocks_seen_at};

use block_headers::Headers;
use packet::{Packet, Refusal};

// How many older blocks there are, where the oldest starts, and where the primary does.
#[derive(Clone, Copy)]
pub struct Blocks {
    pub count: usize,
    pub first: usize,
    pub primary: usize,
}

// After the headers: blocks must fit, be of ages that fall, and be text.
fn read_blocks(packet: &[u8], from: usize, headers: Headers, end: usize) -> Result<Blocks, Refusal>
    requires { (from + 4 * headers.count ≤ headers.first) × (headers.first ≤ end) × (end ≤ length packet.now) × (headers.primary ≡ headers.first + total (heads_in headers.count (drop from packet.now))) × (headers.ages_fall ≡ ages_fall (heads_in headers.count (drop from packet.now))) }
    ensures { blocks_seen result ≡ seen_behind end (Heads.heads (heads_in headers.count (drop from packet.now)) (slice headers.first end packet.now)) }
{
    if end < headers.primary {
        return Err(Refusal::BlockLengths);
    }
    if !headers.ages_fall {
        return Err(Refusal::BlockAges);
    }
    judging::judge_text(packet, from, headers.first, headers.count, end)?;
    Ok(Blocks {
        count: headers.count,
        first: headers.first,
        primary: headers.primary,
    })
}

// Reads the blocks of the payload that lies from `from` up to `end`.
pub fn read(
    plain: bool,
    t140: u8,
    packet: &[u8],
    from: usize,
    end: usize,
) -> Result<Blocks, Refusal>
    ensures { blocks_seen result ≡ blocks_seen_at plain t140 packet.now from end }
{
    let headers = block_headers::read(plain, t140, packet, from, end)?;
    read_blocks(packet, from, headers, end)
}

// Where the last `back` older blocks start, by the lengths in their headers, which stand before the oldest block.
fn start_back(bytes: &[u8], first: usize, primary: usize, back: usize) -> usize
    ensures { result ≡ start_counted_back bytes.now first primary back }
{
    let mut at = primary;
    let mut behind = first.saturating_sub(1);
    for done in 0..back {
        behind = behind.saturating_sub(4);
        let head = block_headers::head_at(bytes, behind);
        at = at.saturating_sub(usize::from(head.len));
    }
    at
}

// Where block k of a packet starts: older blocks from 0 on, oldest first, then the primary; after it, the end.
pub fn start_of(bytes: &[u8], packet: Packet, k: usize) -> usize
    ensures { result ≡ start_of bytes.now packet k }
{
    if k == 0 {
        packet.first
    } else if packet.count < k {
        packet.end
    } else {
        start_back(bytes, packet.first, packet.primary, packet.count - k)
    }
}

// One block; nothing after the primary.
pub fn block(bytes: &[u8], packet: Packet, k: usize) -> &[u8]
    ensures { result.now ≡ block_of bytes.now packet k }
{
    if Packet::LEVEL < k {
        return &bytes[..0];
    }
    let from = start_of(bytes, packet, k);
    let to = start_of(bytes, packet, k + 1);
    packet::part(bytes, from, to)
}
