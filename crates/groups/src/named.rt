// The header group or the trailer group with a given 0534.
ghost use Rattle.std.specs.Prelude.{◌≡◌, ◌+◌, ◌≤◌, length};
ghost use Rattle.syntax.specs.Content.{compared, content};
ghost use Rattle.groups.specs.Groups.{headers_as, trailers_as, sought_in};

use syntax::classes::Classes;
use syntax::content::same_reference;
use syntax::reading::component_part;
use walk::sections::Layout;

// Groups that stand one behind the other: the rows of their starts, from `first` on, `count` of them; where the last one ends; and the
// element of their first segments that has their reference.
#[derive(Clone, Copy)]
pub struct Groups {
    pub first: usize,
    pub count: usize,
    pub end: usize,
    pub element: usize,
}

#[derive(Clone, Copy)]
pub struct Range {
    pub start: usize,
    pub end: usize,
}

// The header groups: 0534 is the second element of USH.
pub fn headers_of(c: Layout) -> Groups
    ensures { result ≡ headers_as c }
{
    Groups {
        first: 0,
        count: c.headers,
        end: c.body,
        element: 2,
    }
}

// The trailer groups: 0534 is the first element of UST.
pub fn trailers_of(c: Layout) -> Groups
    ensures { result ≡ trailers_as c }
{
    Groups {
        first: 9,
        count: c.trailers,
        end: c.unt,
        element: 1,
    }
}

// Where the group starts and ends whose 0534 has the content of `x` under `release`. A group ends where the next one starts, so the last is
// looked at first.
pub fn group_like(
    s: &[u8],
    t: &Classes,
    rows: &[usize; 18],
    g: Groups,
    x: &[u8],
    release: u8,
) -> Option<Range>
    requires count_bound { (g.first + g.count ≤ 18) × (length rows.now ≡ 18) }
    ensures { result ≡ sought_in t.now.syntax.service s.now rows.now g.first g.element (compared (content release x.now)) g.count g.end }
{
    let v = t.syntax.service;
    let first = g.first;
    let element = g.element;
    let mut i = g.count;
    let mut end = g.end;
    while 0 < i {
        let k = i - 1;
        let start = rows[first + k];
        if same_reference(
            component_part(s, start, t, element, 0),
            v.release,
            x,
            release,
        ) {
            return Some(Range {
                start: start,
                end: end,
            });
        }
        end = start;
        i = k;
    }
    None
}

// The group with the 0534 `reference`, which is content: a space frees nothing.
pub fn group_named(
    s: &[u8],
    t: &Classes,
    rows: &[usize; 18],
    g: Groups,
    reference: &[u8],
) -> Option<Range>
    requires count_bound { (g.first + g.count ≤ 18) × (length rows.now ≡ 18) }
    ensures { result ≡ sought_in t.now.syntax.service s.now rows.now g.first g.element (compared reference.now) g.count g.end }
{
    group_like(s, t, rows, g, reference, 32)
}
