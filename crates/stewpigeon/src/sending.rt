// The sender for C and Rust callers, who lend its record, its texts and its log by pointers. All zeros are a sender too: it refuses
// every call.
ghost use Rattle.std.specs.Prelude.{◌≡◌};
ghost use Rattle.sender.specs.Opening.{zero_record};
ghost use Rattle.sender_boundary.specs.Calls.{settings_from, OpensIn, OffersIn, ClocksIn};

use sender::Sender;

// What the record holds where the opening is refused.
#[tactic(auto, unfolding(packet_spec::specs::Limits::level))]
fn zeros() -> Sender
    ensures { result ≡ zero_record }
{
    Sender::default()
}

// Opens a sender in the record lent, and makes the texts all zeros: 0, or the refusal's number and a record of all zeros.
#[unsafe(no_mangle)]
pub extern "C" fn stewpigeon_sender_open_in(
    sender: &mut Sender,
    texts: &mut [u8; Sender::TEXTS],
    level: usize,
    buffering: u64,
    rate: usize,
    t140: u8,
    red: u8,
    sequence: u16,
    timestamp: u32,
    source: u32,
) -> u8
    ensures { OpensIn (settings_from level buffering rate t140 red sequence timestamp source) result sender.new texts.new }
{
    let opened = sender_boundary::open(
        texts, level, buffering, rate, t140, red, sequence, timestamp, source,
    );
    crate::store_opened(opened, zeros(), sender)
}

// Offers text: 0, or the refusal's number.
#[unsafe(no_mangle)]
pub extern "C" fn stewpigeon_sender_offer_in(
    sender: &mut Sender,
    texts: &mut [u8; Sender::TEXTS],
    clock: u64,
    text: &[u8],
) -> u8
    ensures { OffersIn sender.old texts.old clock text.now result sender.new texts.new }
{
    packet::number_of(sender.offer(clock, text, texts))
}

// Gives the clock: the length of the packet, which is written to the front of `packet`, or 0 where none is due, or minus
// the refusal's number.
#[unsafe(no_mangle)]
pub extern "C" fn stewpigeon_sender_clock_in(
    sender: &mut Sender,
    texts: &mut [u8; Sender::TEXTS],
    log: &mut [u64; Sender::LOG],
    clock: u64,
    packet: &mut [u8],
) -> i64
    ensures { ClocksIn sender.old texts.old log.old clock packet.old result sender.new texts.new log.new packet.new }
{
    let answer = sender.clock(clock, texts, log, packet);
    sender_boundary::code_of(answer)
}
