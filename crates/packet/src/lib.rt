// A packet of an RTP text line as the reader hands it over: its fields and the places of its blocks; and the refusals.
#![tactic(auto)]

ghost use Rattle.std.specs.Prelude.{◌≡◌};
ghost use Rattle.base.specs.Arrays as Arrays;
ghost use Rattle.packet.specs.Refusal.{number, outcome_number};

// The refusals of 01 and 02, in the order of their numbers.
#[derive(Clone, Copy, PartialEq, Eq)]
pub enum Refusal {
    Level,
    Buffering,
    PayloadTypes,
    WaitingRoom,
    Clock,
    Text,
    NoText,
    Space,
    Rate,
    Short,
    Long,
    Version,
    Header,
    Padding,
    PayloadType,
    Source,
    BlockHeaders,
    BlockCount,
    BlockType,
    BlockLengths,
    BlockText,
    BlockAges,
    HeldPacket,
}

impl From<Refusal> for u8 {
    ghost from_gives = { λ r n. n ≡ number r };

    fn from(refusal: Refusal) -> u8 {
        match refusal {
            Refusal::Level => 1,
            Refusal::Buffering => 2,
            Refusal::PayloadTypes => 3,
            Refusal::WaitingRoom => 4,
            Refusal::Clock => 5,
            Refusal::Text => 6,
            Refusal::NoText => 7,
            Refusal::Space => 8,
            Refusal::Rate => 9,
            Refusal::Short => 10,
            Refusal::Long => 11,
            Refusal::Version => 12,
            Refusal::Header => 13,
            Refusal::Padding => 14,
            Refusal::PayloadType => 15,
            Refusal::Source => 16,
            Refusal::BlockHeaders => 17,
            Refusal::BlockCount => 18,
            Refusal::BlockType => 19,
            Refusal::BlockLengths => 20,
            Refusal::BlockText => 21,
            Refusal::BlockAges => 22,
            Refusal::HeldPacket => 27,
        }
    }
}

// 01's number, 0 where a call is accepted.
pub fn number_of(outcome: Result<(), Refusal>) -> u8
    ensures { result ≡ outcome_number outcome }
{
    match outcome {
        Ok(()) => 0,
        Err(refusal) => u8::from(refusal),
    }
}

// What an accepted packet holds: the M bit, 0 or 1, so many older blocks, oldest first, from `first` on, and the primary from
// `primary` up to `end`. Where an older block ends is told by its header alone, in the packet's bytes.
#[derive(Clone, Copy)]
pub struct Packet {
    pub marker: u8,
    pub sequence: u16,
    pub timestamp: u32,
    pub source: u32,
    pub count: usize,
    pub first: usize,
    pub primary: usize,
    pub end: usize,
}

impl Packet {
    // The highest level R, and number of older blocks; `level` in packet_spec is the same for the definitions.
    pub const LEVEL: usize = 7;
    // The lengths of packets that are read.
    pub const SHORTEST: usize = 12;

    pub const LONGEST: usize = 1472;
}

// The bytes from one place up to another; nothing where these do not lie within the bytes.
pub fn part(bytes: &[u8], from: usize, to: usize) -> &[u8]
    ensures { result.now ≡ Arrays.part from to bytes.now }
{
    bytes.get(from..to).unwrap_or(&bytes[..0])
}
