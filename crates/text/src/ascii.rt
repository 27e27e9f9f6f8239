// ASCII (below 80 hex), many bytes at a time.
ghost use Rattle.std.specs.Prelude.{◌≡◌, true, ◌<◌, ◌≤◌, length, take};
ghost use Rattle.base.specs.Every.{Every};

const WIDE: usize = 32;

// Whether so many bytes are ASCII: all at once, which becomes a few wide instructions.
fn are_ascii(bytes: &[u8; WIDE]) -> bool
    ensures { result ≡ true → Every (λ b. b < 0x80) bytes.now }
{
    let joined = bytes.iter().fold(0u8, |joined, byte| joined | *byte);
    joined.is_ascii()
}

// A place up to which all bytes are ASCII, a multiple of 32.
pub fn wide_end(bytes: &[u8]) -> usize
    ensures { (result ≤ length bytes.now) × Every (λ b. b < 0x80) (take result bytes.now) }
{
    let mut at: usize = 0;
    for wide in bytes.as_chunks::<WIDE>().0 {
        if !are_ascii(wide) {
            break;
        }
        at += WIDE;
    }
    at
}
