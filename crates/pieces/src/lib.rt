// Whole pieces of a packet, gathered in a lent space.
#![tactic(auto)]

ghost use Rattle.std.specs.Prelude.{◌≡◌, ◌≤◌, ◌+◌, ◌/◌, min, length, take, drop};
ghost use Rattle.std.proofs.Math.Seq.{paste};
ghost use Rattle.base.specs.Arrays.{over};
ghost use Rattle.packet_spec.specs.Redundancy.{joined};
ghost use Rattle.journal_spec.specs.Records.{piece_length};
ghost use Rattle.pieces.specs.Internal.Pieces.{pieces_first};

use parts::Part;

// A piece's record: its kind byte and the piece.
const RECORD: usize = 1 + Part::PIECE;

// A record's piece to its place in the space. By way of an array of its own, all its bytes move at once: without it LLVM tests
// whether the two places overlap, and copies byte by byte where they do.
fn copy_piece(from: &[u8; RECORD], space: &mut [u8], at: usize)
    requires { at + 16 ≤ length space.old }
    ensures { space.new ≡ paste space.old at (drop 1 from.now) 16 }
{
    let mut piece = [0u8; Part::PIECE];
    piece.copy_from_slice(&from[1..]);
    space[at..at + Part::PIECE].copy_from_slice(&piece);
}

// As many of the input's first n bytes as there are and fit. Answers how many. It has a bound more than printing's `put`: by way
// of that one it is no shorter.
pub fn put(n: usize, input: &[u8], space: &mut [u8]) -> usize
    ensures value { result ≡ min (min n (length input.now)) (length space.old) }
    ensures space_after { space.new ≡ over (take result input.now) space.old }
{
    let m = n.min(input.len()).min(space.len());
    space[..m].copy_from_slice(&input[..m]);
    m
}

// The pieces with which the input begins, as many as the space holds, are put one after the other. Answers how many.
pub fn gather(input: &[u8], space: &mut [u8]) -> usize
    ensures value { result ≡ length (pieces_first (length space.old / piece_length) input.now) }
    ensures space_after { space.new ≡ over (joined (pieces_first (length space.old / piece_length) input.now)) space.old }
{
    let mut rest = input;
    let mut count = 0;
    let mut end = 0;
    while let Some((record, after)) = rest.split_first_chunk::<RECORD>()
        && record[0] == 3
        && Part::PIECE <= space.len() - end
    {
        copy_piece(record, space, end);
        rest = after;
        end += Part::PIECE;
        count += 1;
    }
    count
}
