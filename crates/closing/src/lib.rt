// The lines that close a transcript, put into the front of a lent space as far as they fit; the bytes after them stay. Each
// function answers how many bytes were put.
#![tactic(auto)]

ghost use Rattle.std.specs.Prelude.{◌≡◌, [], ◌∷◌, ◌++◌, ◌≤◌, length};
ghost use Rattle.base.specs.Arrays.{over};
ghost use Rattle.journal_spec.specs.Lines.{decimal, counts_line, broken_line};
ghost use Rattle.printing.specs.Fitting.{fitting};

// A name, and the number after it in decimal. `write!` says nothing of the bytes where the space ends within what it writes,
// so the digits go by way of an array.
fn put_named(name: &[u8], n: u64, space: &mut [u8]) -> usize
    ensures { (result ≡ length (fitting (name.now ++ decimal n) space.old)) × (space.new ≡ over (fitting (name.now ++ decimal n) space.old) space.old) × (result ≤ length space.old) }
{
    let at = printing::put(name, space);
    let mut digits = [0u8; 20];
    let k = io::decimal(n, &mut digits);
    at + printing::put(&digits[..k], &mut space[at..])
}

// The line of counts: four numbers, since what counts them stands above, over the receiver.
pub fn put_counts(packets: u64, late: u64, lost: u64, refused: u64, space: &mut [u8]) -> usize
    ensures { (result ≡ length (fitting (counts_line packets late lost refused) space.old)) × (space.new ≡ over (fitting (counts_line packets late lost refused) space.old) space.old) × (result ≤ length space.old) }
{
    let mut at = put_named(b"\npackets ", packets, space);
    at += put_named(b" late ", late, &mut space[at..]);
    at += put_named(b" lost ", lost, &mut space[at..]);
    at += put_named(b" refused ", refused, &mut space[at..]);
    at + printing::put(b"\n", &mut space[at..])
}

// The line of a broken journal.
pub fn put_broken(space: &mut [u8]) -> usize
    ensures { (result ≡ length (fitting broken_line space.old)) × (space.new ≡ over (fitting broken_line space.old) space.old) × (result ≤ length space.old) }
{
    printing::put(b"\njournal broken\n", space)
}
