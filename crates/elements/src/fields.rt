// One pass over the pieces of a segment that notes what the checks ask of it, so that each of them costs a look.
ghost use Rattle.std.specs.Prelude.{◌≡◌, ◌||◌, ◌+◌, ◌≤◌, ◌<◌, length, Some};
ghost use Rattle.syntax.specs.Segment.{pieces_at, at_element, components, repeats, component_at, part_of};
ghost use Rattle.syntax.specs.Clean.{TagAt};
ghost use Rattle.elements.specs.Fields.{PassedAs, repeating_as, closed_marks, ClosedAs, placed, TakenAs, TakenOneAs, Cleared, Marked, FieldsAs, start_in, end_in};

use syntax::Syntax;
use syntax::classes::Classes;
use syntax::reading::clean_end;

// How many elements a segment has, and whether anything in it repeats.
#[derive(Clone, Copy)]
pub struct Shape {
    pub size: usize,
    pub repeats: bool,
}

// From a piece at `from` to behind its element: where the next one starts, whether the segment ends there instead, and whether the element repeats. None,
// here and below: the segment has no end, or an octet outside the repertoire.
fn skip(s: &[u8], from: usize, t: &Classes) -> Option<(usize, bool, bool)>
    ensures { PassedAs t.now.syntax s.now from result }
{
    let mut j = from;
    let mut b = false;
    while let Some((q, k)) = clean_end(s, j, t) {
        if k == 4 {
            return Some((q + 1, false, b));
        }
        if k == 5 {
            return Some((q + 1, true, b));
        }
        if k == 3 {
            b = true;
            j = q + 1;
            continue;
        }
        j = q + 1;
    }
    None
}

// Component `n` goes from `x` to `z`: noted for the first three.
fn place(marks: &mut [usize], b: usize, n: usize, x: usize, z: usize)
    requires { (length marks.old ≡ 40) × (b + 8 ≤ 40) }
    ensures { marks.new ≡ placed marks.old b n x z }
{
    if n < 3 {
        let e = b + 2 + 2 * n;
        marks[e] = x;
        marks[e + 1] = z;
    }
}

fn repeating(p: Option<(usize, bool, bool)>) -> Option<(usize, bool, bool)>
    ensures { result ≡ repeating_as p }
{
    let (at, ends, _) = p?;
    Some((at, ends, true))
}

// The element's first repeat, of `n` components, ends at `q`, before a separator of kind `k`: goes behind the element.
fn closed(
    s: &[u8],
    q: usize,
    k: u8,
    t: &Classes,
    marks: &mut [usize],
    b: usize,
    n: usize,
) -> Option<(usize, bool, bool)>
    requires marks_len { (length marks.old ≡ 40) × (b + 8 ≤ 40) × (q < length s.now) }
    ensures closed_as { ClosedAs t.now.syntax s.now q k result }
    ensures marks_after { marks.new ≡ closed_marks marks.old b n k }
{
    marks[b] = n;
    if k == 3 {
        marks[b + 1] = 1;
        return repeating(skip(s, q + 1, t));
    }
    marks[b + 1] = 0;
    Some((q + 1, k == 5, false))
}

// Notes the element at `from` in the eight marks from `b` on, and goes behind it.
fn note(
    s: &[u8],
    from: usize,
    t: &Classes,
    marks: &mut [usize],
    b: usize,
) -> Option<(usize, bool, bool)>
    requires marks_len { (length marks.old ≡ 40) × (b + 8 ≤ 40) }
    ensures { TakenAs t.now.syntax s.now from result marks.old marks.new b }
{
    let mut j = from;
    let mut n: usize = 0;
    while let Some((q, k)) = clean_end(s, j, t) {
        place(marks, b, n, j, q);
        n += 1;
        if k == 2 {
            j = q + 1;
            continue;
        }
        return closed(s, q, k, t, marks, b, n);
    }
    None
}

// The element with `n` before it: noted if it is one of the first five.
fn take_one(
    s: &[u8],
    from: usize,
    t: &Classes,
    marks: &mut [usize],
    n: usize,
) -> Option<(usize, bool, bool)>
    requires marks_len { length marks.old ≡ 40 }
    ensures { TakenOneAs t.now.syntax s.now from result marks.old marks.new n }
{
    if n < 5 {
        return note(s, from, t, marks, 8 * n);
    }
    skip(s, from, t)
}

// No element is noted yet.
fn clear(marks: &mut [usize])
    requires { length marks.old ≡ 40 }
    ensures { Cleared marks.new 0 5 }
{
    for p in 0..5 {
        marks[8 * p] = 0;
        marks[8 * p + 1] = 0;
    }
}

// The elements of the segment at `at`, from behind its tag on.
fn elements_from(
    s: &[u8],
    at: usize,
    from: usize,
    over: bool,
    repeats: bool,
    t: &Classes,
    marks: &mut [usize],
) -> Option<(usize, Shape)>
    requires passed_as { PassedAs t.now.syntax s.now at (Some (from, over, repeats)) × Cleared marks.old 0 5 }
    ensures { FieldsAs t.now.syntax s.now at result marks.new }
{
    let mut i = from;
    let mut ends = over;
    let mut b = repeats;
    let mut n: usize = 0;
    while !ends {
        let (next, last, repeats) = take_one(s, i, t, marks, n)?;
        n += 1;
        i = next;
        ends = last;
        b |= repeats;
    }
    Some((
        i - 1,
        Shape {
            size: n,
            repeats: b,
        },
    ))
}

// The same from `from`, behind the three octets of a tag: nearly always the tag ends there.
fn pass_tag(s: &[u8], from: usize, t: &Classes) -> Option<(usize, bool, bool)>
    requires from_in_bounds { from < length s.now }
    ensures { PassedAs t.now.syntax s.now from result }
{
    if t.class(s[from]) == 4 {
        return Some((from + 1, false, false));
    }
    skip(s, from, t)
}

// One pass over the segment with a tag at `at`: it is cut, and of each element p from 1 to 5 it is noted, in the eight marks from 8 * (p - 1) on: how many
// components its first repeat has (0: it is not there), 1 if it repeats, and start and end of its first three components, as far as they are there.
pub fn fields(s: &[u8], at: usize, t: &Classes, marks: &mut [usize]) -> Option<(usize, Shape)>
    requires tag_at { TagAt t.now.syntax s.now at × (length marks.old ≡ 40) }
    ensures { FieldsAs t.now.syntax s.now at result marks.new }
{
    // Before the elements: the number of stores is known here, so no branch is guessed wrong as behind the last one.
    clear(marks);
    let (from, ends, repeats) = pass_tag(s, at + 3, t)?;
    elements_from(s, at, from, ends, repeats, t, marks)
}

// Where component `c` of element `p` starts and ends, as `fields` noted it; 0 and 0 if it is not there.
pub fn field_start(marks: &[usize], p: usize, c: usize) -> usize
    requires { (length marks.now ≡ 40) × (1 ≤ p) × (p ≤ 5) × (c ≤ 2) }
    ensures { result ≡ start_in marks.now p c }
{
    let b = 8 * (p - 1);
    if marks[b] <= c {
        return 0;
    }
    marks[b + 2 + 2 * c]
}

pub fn field_end(marks: &[usize], p: usize, c: usize) -> usize
    requires { (length marks.now ≡ 40) × (1 ≤ p) × (p ≤ 5) × (c ≤ 2) }
    ensures { result ≡ end_in marks.now p c }
{
    let b = 8 * (p - 1);
    if marks[b] <= c {
        return 0;
    }
    marks[b + 2 + 2 * c + 1]
}
