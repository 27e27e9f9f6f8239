// The functions that C and Rust callers link. What is lent to a call that is refused stays as it was; only an opening writes.
#![tactic(auto)]

mod holding_calls;
mod receiving;
mod sending;

ghost use Rattle.std.specs.Prelude.{◌≡◌, MatchResult};
ghost use Rattle.text_spec.specs.Utf8.{text_of};
ghost use Rattle.packet.specs.Refusal.{number};
ghost use Rattle.packet_spec.specs.Limits.{level};
ghost use Rattle.packet_spec.specs.Reading.{reading};
ghost use Rattle.boundary.specs.Answers.{expected_of, text_answer};
ghost use Rattle.boundary.specs.Packets.{read_number, packet_behind};

use boundary::packets::PacketRecord;
use boundary::{TextAnswer, packets};
use packet::Refusal;

// Stores in a record lent what an opening gives, zeros where it is refused. The call's number.
fn store_opened<R: Copy>(opened: Result<R, Refusal>, zeros: R, lent: &mut R) -> u8
    ensures { MatchResult opened (λ r. (result ≡ 0) × (lent.new ≡ r)) (λ e. (result ≡ number e) × (lent.new ≡ zeros)) }
{
    match opened {
        Ok(opened) => {
            *lent = opened;
            0
        }
        Err(refusal) => {
            *lent = zeros;
            u8::from(refusal)
        }
    }
}

// Reads a packet: 0, and what it holds is stored in `answer`; or the refusal's number. With `expects` 0 any source is
// accepted, else only `source`.
#[unsafe(no_mangle)]
pub extern "C" fn stewpigeon_read(
    expects: u8,
    source: u32,
    t140: u8,
    red: u8,
    packet: &[u8],
    answer: &mut PacketRecord,
) -> u8
    ensures { (result ≡ read_number (reading level (expected_of expects source) t140 red packet.now)) × (answer.new ≡ packet_behind packet.now (reading level (expected_of expects source) t140 red packet.now) answer.old) }
{
    let expected = boundary::expected_of(expects, source);
    match reader::read_from(expected, t140, red, packet) {
        Ok(read) => {
            *answer = packets::record_of(packet, read);
            0
        }
        Err(refusal) => u8::from(refusal),
    }
}

// Tells in `answer` what the bytes are as UTF-8.
#[unsafe(no_mangle)]
pub extern "C" fn stewpigeon_text(bytes: &[u8], answer: &mut TextAnswer)
    ensures { answer.new ≡ text_answer (text_of bytes.now) }
{
    *answer = boundary::text(bytes);
}
