// Marks and text, put into the front of a lent space as far as they fit; the bytes after them stay.
#![tactic(auto)]

ghost use Rattle.std.specs.Prelude.{◌≡◌, ◌≤◌, length};
ghost use Rattle.base.specs.Arrays.{over};
ghost use Rattle.printing.specs.Fitting.{fitting, marks_fitting, text_fitting, due_fitting};

use marks::LossMark;

// Answers how many bytes were put.
pub fn put(text: &[u8], space: &mut [u8]) -> usize
    ensures { (result ≡ length (fitting text.now space.old)) × (space.new ≡ over (fitting text.now space.old) space.old) × (result ≤ length space.old) }
{
    let n = text.len().min(space.len());
    space[..n].copy_from_slice(&text[..n]);
    n
}

// How many marks and how many bytes of text were put.
#[derive(Clone, Copy)]
pub struct Printed {
    pub marks: usize,
    pub text: usize,
}

// Whole marks, and the text after them once all are put.
pub fn put_due(marks: usize, text: &[u8], space: &mut [u8]) -> Printed
    ensures marks_value { (result.marks ≡ marks_fitting marks (length space.old)) × (result.text ≡ text_fitting marks text.now (length space.old)) }
    ensures space_after { space.new ≡ over (due_fitting marks text.now (length space.old)) space.old }
{
    let written = marks::write_marks(marks, space);
    let text = if written < marks {
        0
    } else {
        put(text, &mut space[LossMark::SIZE * written..])
    };
    Printed {
        marks: written,
        text,
    }
}
