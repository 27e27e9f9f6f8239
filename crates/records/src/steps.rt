// Reading on: by whole records where they are there, else by bytes and parts of records.
ghost use Rattle.std.specs.Prelude.{◌≡◌, true, ◌≤◌, ◌<◌, ◌+◌, ◌-◌, ◌%◌, length, get_or};
ghost use Rattle.journal_spec.specs.Records.{piece_length};
ghost use Rattle.journal_spec.specs.Contents.{longest_packet};
ghost use Rattle.parts.specs.Sound.{whole_pieces};
ghost use Rattle.reading.specs.Reading.{sound};
ghost use Rattle.records.specs.Internal.Reading.{ReadAll};
ghost use Rattle.records.specs.Internal.Turns.{Gathers, Passes, Went, Turned};

use parts::Part;
use reading::{Done, Reader};

// A time's record: its kind byte and the time.
const TIME: usize = 1 + Part::TIME;

// That a reader is sound stays a clause of each function: `Reader` is public and asks for nothing, so a ghost field would want
// a wrapper round it, made anew at each turn.

// Where the pieces of a packet of so many bytes end.
fn pieces_end(size: usize) -> usize
    requires { size ≤ longest_packet }
    ensures { (size ≤ result) × (result ≤ size + 15) × (result % piece_length ≡ 0) }
{
    size.next_multiple_of(Part::PIECE)
}

// Where the packet is after whole pieces, how many bytes of them are gathered, and how many of the input were used.
#[derive(Clone, Copy)]
struct Gathered {
    part: Part,
    at: usize,
    used: usize,
}

// Whole pieces after those gathered so far, as many as the packet needs and the input has.
fn gather(size: usize, at: usize, input: &[u8], packet: &mut [u8; Part::LONGEST]) -> Gathered
    requires { (whole_pieces at ≡ true) × (at ≤ longest_packet) × (size ≤ longest_packet) × (at ≤ size) }
    ensures { Gathers size at packet.old input.now result.part result.at packet.new result.used }
{
    let to = pieces_end(size);
    let count = pieces::gather(input, &mut packet[at..to]);
    let more = count * Part::PIECE;
    let end = at + more;
    Gathered {
        part: parts::piece_end(size, &packet[..end]),
        at: end,
        used: count + more,
    }
}

// A kind byte.
fn kind_byte(r: Reader, input: &[u8], packet: &[u8; Part::LONGEST]) -> Done
    requires { (r.part ≡ Part.Kind) × (sound r ≡ true) × (0 < length input.now) }
    ensures { Turned r packet.now input.now result.reader packet.now result.used }
{
    Done {
        reader: r.kind(input[0]),
        used: 1,
    }
}

// Within a packet: whole pieces.
fn more_pieces(r: Reader, input: &[u8], packet: &mut [u8; Part::LONGEST]) -> Done
    requires { (r.part ≡ Part.Kind) × (sound r ≡ true) × (0 < length input.now) × (r.at < r.size) }
    ensures { Turned r packet.old input.now result.reader packet.new result.used }
{
    let g = gather(r.size, r.at, input, packet);
    if g.used == 0 {
        kind_byte(r, input, packet)
    } else {
        Done {
            reader: r.with(g.part, g.at),
            used: g.used,
        }
    }
}

// A packet begins, with its whole pieces.
fn begin_packet(r: Reader, input: &[u8], packet: &mut [u8; Part::LONGEST]) -> Done
    requires { (r.part ≡ Part.Kind) × (sound r ≡ true) × (2 < length input.now)
        × (r.size ≤ r.at) × (r.opened ≡ true) × (get_or input.now 0 0 ≡ 2) }
    ensures { Turned r packet.old input.now result.reader packet.new result.used }
{
    let size = parts::length(input[1], input[2]);
    if parts::is_too_long(size) {
        return Done {
            reader: r.with(Part::Broken, r.at),
            used: 3,
        };
    }
    let g = gather(size, 0, &input[3..], packet);
    Done {
        reader: Reader {
            part: g.part,
            size,
            at: g.at,
            ..r
        },
        used: 3 + g.used,
    }
}

// Some bytes of a piece.
fn piece(r: Reader, n: usize, input: &[u8], packet: &mut [u8; Part::LONGEST]) -> Done
    requires { (r.part ≡ Part.Piece n) × (sound r ≡ true) × (0 < length input.now) × (r.at + n ≤ longest_packet) }
    ensures { Turned r packet.old input.now result.reader packet.new result.used }
{
    let used = pieces::put(n, input, &mut packet[r.at..]);
    let end = r.at + used;
    let part = if used < n {
        Part::Piece(n - used)
    } else {
        parts::piece_end(r.size, &packet[..end])
    };
    Done {
        reader: r.with(part, end),
        used,
    }
}

// A record's byte, or what is there of a piece or a time.
fn turn(r: Reader, input: &[u8], packet: &mut [u8; Part::LONGEST]) -> Done
    requires { (sound r ≡ true) × (0 < length input.now) }
    ensures { Turned r packet.old input.now result.reader packet.new result.used }
{
    match r.part {
        Part::Piece(n) => piece(r, n, input, packet),
        Part::Time(n) => r.time(n, input.len()),
        Part::Kind if r.at < r.size => more_pieces(r, input, packet),
        Part::Kind => kind_byte(r, input, packet),
        _ => r.byte(input[0]),
    }
}

// Turn by turn.
fn turns(r: Reader, input: &[u8], packet: &mut [u8; Part::LONGEST]) -> Done
    requires { (sound r ≡ true) }
    ensures { ReadAll r packet.old input.now result.reader packet.new result.used }
{
    let mut reader = r;
    let mut used = 0;
    // A turn uses no, one or more bytes, so the input is not walked by an iterator.
    while used < input.len() {
        let t = turn(reader, &input[used..], packet);
        reader = t.reader;
        if t.used == 0 {
            break;
        }
        used += t.used;
    }
    Done { reader, used }
}

// How many bytes the whole times have with which the input begins.
fn whole_times(input: &[u8]) -> usize
    ensures { Passes input.now result }
{
    let mut rest = input;
    while let Some((record, after)) = rest.split_first_chunk::<TIME>()
        && record[0] == 4
    {
        rest = after;
    }
    input.len() - rest.len()
}

// At a kind byte between packets: the packet that begins there, or after whole times, with its whole pieces.
fn start(r: Reader, input: &[u8], packet: &mut [u8; Part::LONGEST]) -> Done
    requires { (sound r ≡ true) }
    ensures { Went r packet.old input.now result.reader packet.new result.used }
{
    if matches!(r.part, Part::Kind) && r.size <= r.at && r.opened {
        let before = whole_times(input);
        let rest = &input[before..];
        if 2 < rest.len() && rest[0] == 2 {
            let t = begin_packet(r, rest, packet);
            return Done {
                used: before + t.used,
                ..t
            };
        }
    }
    Done { reader: r, used: 0 }
}

// Most calls find a whole packet and are done with it; the turns are for the others.
pub fn run(r: Reader, input: &[u8], packet: &mut [u8; Part::LONGEST]) -> Done
    requires { (sound r ≡ true) }
    ensures { ReadAll r packet.old input.now result.reader packet.new result.used }
{
    let started = start(r, input, packet);
    if !started.reader.part.is_going() {
        return started;
    }
    let t = turns(started.reader, &input[started.used..], packet);
    Done {
        used: started.used + t.used,
        ..t
    }
}
