// UTF-8 (RFC 3629, section 4): a byte at a time, ASCII many at a time.
#![tactic(auto)]

mod ascii;

ghost use Rattle.std.specs.Prelude.{◌≡◌, [], length, get_or, take, ◌<◌, ◌≤◌};
ghost use Rattle.base.specs.Every.{Every};
ghost use Rattle.text_spec.specs.Utf8.{owed_after, begins, text_of};
ghost use Rattle.text_spec.specs.Front.{front};
ghost use Rattle.text.specs.Owed.{owes, walked};
ghost use Rattle.text.specs.Answer.{text_answered};

// What a letter that has begun still owes: so many tails, and the range of the next one. With no tails none has begun: an
// `Option` for that would make of what a byte leads to an `Option` of an `Option`.
#[derive(Clone, Copy)]
pub struct Owed {
    pub tails: u8,
    pub low: u8,
    pub high: u8,
}

impl Owed {
    fn new(tails: u8, low: u8, high: u8) -> Owed
        ensures { result ≡ record { tails = tails; low = low; high = high } }
    {
        Owed { tails, low, high }
    }

    // No letter begun.
    pub fn fresh() -> Owed
        ensures { owes result ≡ [] }
    {
        Owed::new(0, 0x80, 0xBF)
    }

    // 1 where the next byte begins a letter.
    pub fn begins(self) -> usize
        ensures { (result ≡ begins (owes self)) × (result ≤ 1) }
    {
        usize::from(self.tails == 0)
    }

    // What a byte leads to; none where it may not come next.
    pub fn step(self, byte: u8) -> Option<Owed>
        ensures { walked result ≡ owed_after (owes self) byte }
    {
        if self.tails == 0 {
            return lead(byte);
        }
        if !(self.low..=self.high).contains(&byte) {
            return None;
        }
        Some(Owed::new(self.tails - 1, 0x80, 0xBF))
    }
}

// What a letter's first byte leads to.
pub fn lead(byte: u8) -> Option<Owed>
    ensures { walked result ≡ owed_after [] byte }
{
    Some(match byte {
        0..=0x7F => Owed::new(0, 0x80, 0xBF),
        0xC2..=0xDF => Owed::new(1, 0x80, 0xBF),
        0xE0 => Owed::new(2, 0xA0, 0xBF),
        0xED => Owed::new(2, 0x80, 0x9F),
        0xE1..=0xEF => Owed::new(2, 0x80, 0xBF),
        0xF0 => Owed::new(3, 0x90, 0xBF),
        0xF4 => Owed::new(3, 0x80, 0x8F),
        0xF1..=0xF3 => Owed::new(3, 0x80, 0xBF),
        _ => return None,
    })
}

// Bytes that are not text, and the place of the first at which they can no longer be well formed (their end, where they
// stop inside a letter).
#[derive(Clone, Copy, PartialEq, Eq)]
pub struct NotText {
    pub place: usize,
}

// How many characters a run of bytes is as text.
pub fn text_of(bytes: &[u8]) -> Result<usize, NotText>
    ensures { text_answered result ≡ text_of bytes.now }
{
    let mut owed = Owed::fresh();
    let mut characters: usize = 0;
    // ASCII letters, one after the other
    let mut run: usize = 0;
    let mut at: usize = 0;
    // by places, since it passes a long run at once; `lead` beside `step`, since with `step` alone each byte is tested twice
    while at < bytes.len() {
        let byte = bytes[at];
        characters += owed.begins();
        owed = if owed.tails == 0 {
            if byte.is_ascii() {
                at += 1;
                run += 1;
                // fewer are not worth the call
                if run == 8 {
                    let more = ascii_end(&bytes[at..]);
                    at += more;
                    characters += more;
                    run = 0;
                }
                continue;
            }
            lead(byte).ok_or(NotText { place: at })?
        } else {
            owed.step(byte).ok_or(NotText { place: at })?
        };
        at += 1;
        run = 0;
    }
    if owed.tails != 0 {
        return Err(NotText { place: at });
    }
    Ok(characters)
}

// Where the ASCII at the front of bytes ends.
pub fn ascii_end(bytes: &[u8]) -> usize
    ensures { (result ≤ length bytes.now) × Every (λ b. b < 0x80) (take result bytes.now) × (result < length bytes.now → 0x80 ≤ get_or bytes.now result 0) }
{
    let wide = ascii::wide_end(bytes);
    let rest = &bytes[wide..];
    wide + rest
        .iter()
        .position(|byte| !byte.is_ascii())
        .unwrap_or(rest.len())
}

// How many bytes the first characters have, so many at most. They end at a byte that begins no letter; a letter that the
// end cuts counts with what there is of it.
pub fn front(bytes: &[u8], most: usize) -> usize
    ensures { (result ≡ length (front most bytes.now)) × (result ≤ length bytes.now) }
{
    let mut at: usize = 0;
    for _ in 0..most {
        if at == bytes.len() {
            break;
        }
        let Some(owed) = lead(bytes[at]) else {
            break;
        };
        let letter = 1 + usize::from(owed.tails);
        at = bytes.len().min(at + letter);
    }
    at
}
