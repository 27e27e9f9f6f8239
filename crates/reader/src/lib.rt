// Reading a packet of an RTP text line: the header (RFC 3550), the blocks (RFC 2198), the text (RFC 4103, RFC 3629).
#![tactic(auto)]

ghost use Rattle.std.specs.Prelude.{◌≡◌};
ghost use Rattle.packet_spec.specs.Header.{Any};
ghost use Rattle.packet.specs.Places.{expected_source, numbered, read_of};

use packet::{Packet, Refusal};

// Reads a packet of the source that is expected; of any where none is.
pub fn read_from(expected: Option<u32>, t140: u8, red: u8, packet: &[u8]) -> Result<Packet, Refusal>
    ensures { numbered result ≡ read_of (expected_source expected) t140 red packet.now }
{
    let header = header::read(expected, t140, red, packet)?;
    let blocks = blocks::read(header.plain, t140, packet, header.from, header.end)?;
    Ok(Packet {
        marker: u8::from(header.marker),
        sequence: header.sequence,
        timestamp: header.timestamp,
        source: header.source,
        count: blocks.count,
        first: blocks.first,
        primary: blocks.primary,
        end: header.end,
    })
}

// Reads a packet of any source.
pub fn read(t140: u8, red: u8, packet: &[u8]) -> Result<Packet, Refusal>
    ensures { numbered result ≡ read_of Any t140 red packet.now }
{
    read_from(None, t140, red, packet)
}
