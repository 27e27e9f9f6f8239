// A circle of so many places, numbered from 0.
#![tactic(auto)]

ghost use Rattle.std.specs.Prelude.{◌≡◌};
ghost use Rattle.circle.specs.Circle.{place, after, around};

// The place of a number; 0 where it is none of a place.
pub fn place(size: usize, number: usize) -> usize
    ensures { result ≡ place size number }
{
    if number < size { number } else { 0 }
}

// The place after a place, the first after the last.
pub fn after(size: usize, place: usize) -> usize
    ensures { result ≡ after size place }
{
    let next = place.wrapping_add(1);
    if next < size { next } else { 0 }
}

// The place that is reached at a number, at most a whole circle further than a place.
pub fn around(size: usize, number: usize) -> usize
    ensures { result ≡ around size number }
{
    if number < size { number } else { number - size }
}
