// Writes the headers of a packet to the front of a lent space.
ghost use Rattle.std.specs.Prelude.{◌≡◌, ◌≤◌, ◌<◌, length};
ghost use Rattle.base.specs.Arrays.{over};
ghost use Rattle.packet_spec.specs.Limits.{level};
ghost use Rattle.packet_spec.specs.Encoding.{fixed_header};
ghost use Rattle.writer.specs.Internal.Headers.{header_for, headers_for, second_of, front_with, front_size};

use carrying::Carried;
use packet::Packet;

// The header's values: the number of repeats, the two payload types, M, the sequence number, the timestamp and the source.
#[derive(Clone, Copy)]
pub struct Heading {
    pub level: usize,
    pub t140: u8,
    pub red: u8,
    pub marker: bool,
    pub sequence: u16,
    pub timestamp: u32,
    pub source: u32,
}

impl Heading {
    // The length of the headers, with `count` older blocks.
    pub(crate) fn size(self, count: usize) -> usize
        requires { count ≤ level }
        ensures { result ≡ front_size self.level count }
    {
        if self.level == 0 {
            12
        } else {
            12 + (4 * count + 1)
        }
    }

    // The headers of a packet that repeats these blocks.
    pub(crate) fn put(self, to: &mut [u8], carried: Carried)
        requires { length (front_with self carried.tags carried.count) ≤ length to.old }
        ensures { to.new ≡ over (front_with self carried.tags carried.count) to.old }
    {
        put_header(
            to,
            self.second(),
            self.sequence,
            self.timestamp,
            self.source,
        );
        if self.level != 0 {
            put_heads(&mut to[12..], self.t140 % 128, carried);
        }
    }

    // M and the payload type, in one byte.
    fn second(self) -> u8
        ensures { result ≡ second_of self }
    {
        let kind = if self.level == 0 { self.t140 } else { self.red };
        u8::from(self.marker) * 128 + kind % 128
    }
}

// The fixed header, of 12 bytes. The source is written first, so that its bytes are stored as one number.
fn put_header(to: &mut [u8], second: u8, sequence: u16, timestamp: u32, source: u32)
    requires { 12 ≤ length to.old }
    ensures { to.new ≡ over (fixed_header second sequence timestamp source) to.old }
{
    to[8..12].copy_from_slice(&source.to_be_bytes());
    to[4..8].copy_from_slice(&timestamp.to_be_bytes());
    to[2..4].copy_from_slice(&sequence.to_be_bytes());
    to[0] = 0x80;
    to[1] = second;
}

// The headers of the older blocks, which have tags, the last of them first, and the primary's. The loop has a fixed number of turns
// and no `continue`, so that it is unrolled and no array is copied; by the tags, turns without a block cost nothing.
fn put_heads(to: &mut [u8], t140: u8, carried: Carried)
    requires { (t140 < 128) × (length (headers_for t140 carried.tags carried.count) ≤ length to.old) }
    ensures { to.new ≡ over (headers_for t140 carried.tags carried.count) to.old }
{
    let mut at = 0;
    for tag in carried.tags.iter().rev() {
        if 0 < *tag {
            put_head(&mut to[at..], t140, *tag);
            at += 4;
        }
    }
    to[at] = t140;
}

// The header of an older block, of 4 bytes.
fn put_head(to: &mut [u8], t140: u8, tag: u64)
    requires { (t140 < 128) × (4 ≤ length to.old) }
    ensures { to.new ≡ over (header_for t140 tag) to.old }
{
    // by hand: its fields end within bytes; made as one number and cut by `to_be_bytes` it was slower
    let offset = tag / 256 % 16384;
    let size = tag % 256;
    to[0] = 128 + t140;
    to[1] = (offset / 64) as u8;
    to[2] = (offset % 64 * 4 + size / 256) as u8;
    to[3] = (size % 256) as u8;
}
