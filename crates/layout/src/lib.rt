// Where header, payload and padding of a packet lie (RFC 3550, sections 5.1 and 5.3.1): checks 10 to 14.
#![tactic(auto)]

ghost use Rattle.std.specs.Prelude.{◌≡◌, cond, ◌≤◌, ltb, length, drop};
ghost use Rattle.base.specs.Checks.{checked};
ghost use Rattle.packet_spec.specs.Limits.{shortest, longest};
ghost use Rattle.packet_spec.specs.Header.{header_end, padding_bad, payload_end};
ghost use Rattle.packet_spec.specs.Internal.Layout.{layout_checks};
ghost use Rattle.layout.specs.Internal.Seen.{layout_seen, refused_layout, passed_layout, layout_of};

use packet::{Packet, Refusal};

// Where the payload starts, and where it ends before the padding.
#[derive(Clone, Copy)]
pub struct Layout {
    pub from: usize,
    pub end: usize,
}

// Where the payload starts, after the source list and the extension; none where that is not within the packet.
fn start(packet: &[u8]) -> Option<usize>
    requires { (shortest ≤ length packet.now) × (length packet.now ≤ longest) }
    ensures { result ≡ cond (ltb (length packet.now) (header_end packet.now)) None (Some (header_end packet.now)) }
{
    let b = usize::from(packet[0]);
    let list_end = 12 + b % 16 * 4;
    let mut end = list_end;
    if b / 16 % 2 != 0 {
        if packet.len() < list_end + 4 {
            return None;
        }
        let words = u16::from_be_bytes([packet[list_end + 2], packet[list_end + 3]]);
        end = list_end + 4 + usize::from(words) * 4;
    }
    if packet.len() < end {
        return None;
    }
    Some(end)
}

// Where the payload ends, before the padding; none where there is bad padding.
fn end(packet: &[u8], from: usize) -> Option<usize>
    requires { (shortest ≤ length packet.now) × (from ≡ header_end packet.now) × (from ≤ length packet.now) }
    ensures { result ≡ cond (padding_bad packet.now) None (Some (payload_end packet.now)) }
{
    let n = packet.len();
    if packet[0] / 32 % 2 == 0 {
        return Some(n);
    }
    let count = usize::from(packet[n - 1]);
    if count == 0 {
        return None;
    }
    if n - from < count {
        return None;
    }
    Some(n - count)
}

// Where the payload of a packet lies.
#[tactic(auto, unfolding(crate::specs::Internal::Seen::layout_of))]
pub fn read(packet: &[u8]) -> Result<Layout, Refusal>
    ensures { layout_seen result ≡ layout_of packet.now }
{
    if packet.len() < Packet::SHORTEST {
        return Err(Refusal::Short);
    }
    if Packet::LONGEST < packet.len() {
        return Err(Refusal::Long);
    }
    if packet[0] / 64 != 2 {
        return Err(Refusal::Version);
    }
    let from = start(packet).ok_or(Refusal::Header)?;
    let end = end(packet, from).ok_or(Refusal::Padding)?;
    Ok(Layout { from, end })
}
