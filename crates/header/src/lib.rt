// The packet header (RFC 3550, section 5.1): checks 3 and 10 to 16, the fixed fields, and where the payload lies.
#![tactic(auto)]

ghost use Rattle.std.specs.Prelude.{◌≡◌, ◌≤◌, length, drop};
ghost use Rattle.base.specs.Checks.{checked};
ghost use Rattle.packet_spec.specs.Limits.{shortest};
ghost use Rattle.packet_spec.specs.Header as Fields;
ghost use Rattle.packet_spec.specs.Header.{types_bad, other_type, other_source, header_end, payload_end};
ghost use Rattle.packet_spec.specs.Reading.{header_checks};
ghost use Rattle.packet.specs.Places.{expected_source};
ghost use Rattle.header.specs.Internal.Seen.{header_seen, refused_header, passed_header, header_of};

use layout::Layout;
use packet::Refusal;

// Whether the payload is plain, of type T140; the fixed fields; where the payload starts, and where it ends before the padding.
#[derive(Clone, Copy)]
pub struct Header {
    pub plain: bool,
    pub marker: bool,
    pub sequence: u16,
    pub timestamp: u32,
    pub source: u32,
    pub from: usize,
    pub end: usize,
}

// Whether payload types are refused: outside 96 to 127, or equal.
pub fn types_bad(t140: u8, red: u8) -> bool
    ensures { result ≡ types_bad t140 red }
{
    // one by one: joined by `||`, all are always made, which a quiet call of the sender pays for
    if t140 == red {
        return true;
    }
    if !(96..=127).contains(&t140) {
        return true;
    }
    !(96..=127).contains(&red)
}

// That the packet has its fixed header stays a clause of these four: the definitions are of the whole packet, and an array of its
// first bytes would stand beside it.
fn other_type(t140: u8, red: u8, packet: &[u8]) -> bool
    requires { shortest ≤ length packet.now }
    ensures { result ≡ other_type t140 red packet.now }
{
    let kind = packet[1] % 128;
    kind != t140 && kind != red
}

fn source_of(packet: &[u8]) -> u32
    requires { shortest ≤ length packet.now }
    ensures { result ≡ Fields.source_of packet.now }
{
    u32::from_be_bytes([packet[8], packet[9], packet[10], packet[11]])
}

fn other_source(expected: Option<u32>, packet: &[u8]) -> bool
    requires { shortest ≤ length packet.now }
    ensures { result ≡ other_source (expected_source expected) packet.now }
{
    match expected {
        None => false,
        Some(source) => source_of(packet) != source,
    }
}

// Checks 15 and 16, and the fields, of a packet with this layout.
fn read_fields(
    expected: Option<u32>,
    t140: u8,
    red: u8,
    packet: &[u8],
    layout: Layout,
) -> Result<Header, Refusal>
    requires { (shortest ≤ length packet.now) × (layout.from ≡ header_end packet.now) × (layout.end ≡ payload_end packet.now) }
    ensures { header_seen result ≡ checked refused_header (drop 6 (header_checks (expected_source expected) t140 red packet.now)) (passed_header t140 packet.now) }
{
    if other_type(t140, red, packet) {
        return Err(Refusal::PayloadType);
    }
    if other_source(expected, packet) {
        return Err(Refusal::Source);
    }
    Ok(Header {
        plain: packet[1] % 128 == t140,
        marker: 128 <= packet[1],
        sequence: u16::from_be_bytes([packet[2], packet[3]]),
        timestamp: u32::from_be_bytes([packet[4], packet[5], packet[6], packet[7]]),
        source: source_of(packet),
        from: layout.from,
        end: layout.end,
    })
}

// Reads the header of a packet of the source that is expected; of any where none is.
pub fn read(expected: Option<u32>, t140: u8, red: u8, packet: &[u8]) -> Result<Header, Refusal>
    ensures { header_seen result ≡ header_of (expected_source expected) t140 red packet.now }
{
    if types_bad(t140, red) {
        return Err(Refusal::PayloadTypes);
    }
    let layout = layout::read(packet)?;
    read_fields(expected, t140, red, packet, layout)
}
