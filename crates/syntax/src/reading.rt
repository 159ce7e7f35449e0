// Reading a segment: its elements and components, piece by piece. The tag is element 0.
ghost use Rattle.std.specs.Prelude.{◌≡◌, Bool, ◌≤◌, ◌<◌, length};
ghost use Rattle.syntax.specs.Segment.{edge_at, pieces_at, Reaches, at_element, at_component, component_at, part_of, components, repeats, elements, any_repeats};
ghost use Rattle.syntax.specs.Clean.{CleanEdge};
ghost use Rattle.syntax.specs.Clean.{Stopping};

use crate::classes::Classes;
use crate::content::part;
use crate::cutting::stop;
use crate::repertoire::{OUTSIDE, TERMINATOR};

// The cursor: where the piece that starts at `from` ends, and what ends it: 2 a component, 3 a repeat, 4 an element, 5 the segment. None: nothing ends it.
// Kept: what ends a piece is a number, since the definition `kind` orders these numbers and `stop_from` asks for 'kind n or above'.
pub fn piece_end(s: &[u8], from: usize, t: &Classes) -> Option<(usize, u8)>
    ensures { result ≡ edge_at t.now.syntax.service s.now from }
{
    match stop(s, from, t, 2) {
        Some(q) => {
            let c = t.class(s[q]);
            // of what ends a piece, only the terminator has a class that is not its kind
            if c == TERMINATOR {
                return Some((q, 5));
            }
            Some((q, c))
        }
        None => None,
    }
}

// Past the data octets at `from`.
fn data_end(s: &[u8], from: usize, t: &Classes) -> usize
    ensures { Stopping t.now.syntax s.now from result }
{
    let mut i = from;
    while i < s.len() {
        if 1 < t.class(s[i]) {
            return i;
        }
        i += 1;
    }
    i
}

// The same cursor for a segment that is cut on the way: it stops as well where the segment has no end or an octet outside the repertoire.
// What it does for nearly every octet is a loop of its own, so that the loop stays short.
pub fn clean_end(s: &[u8], from: usize, t: &Classes) -> Option<(usize, u8)>
    ensures { CleanEdge t.now.syntax s.now from result }
{
    let mut i = from;
    loop {
        i = data_end(s, i, t);
        if s.len() <= i {
            return None;
        }
        let c = t.class(s[i]);
        if c < TERMINATOR {
            return Some((i, c));
        }
        if c == TERMINATOR {
            return Some((i, 5));
        }
        if c == OUTSIDE {
            return None;
        }
        i += 1;
        if s.len() <= i {
            return None;
        }
        let d = t.class(s[i]);
        if d == OUTSIDE {
            return None;
        }
        i += 1;
    }
}

// Where element `e` starts, of the segment at `a`.
fn element_from(s: &[u8], a: usize, t: &Classes, e: usize) -> Option<usize>
    ensures { Reaches t.now.syntax.service s.now result (at_element e (pieces_at t.now.syntax.service s.now a)) }
{
    let mut i = a;
    let mut n = e;
    while 0 < n {
        match piece_end(s, i, t) {
            Some((q, k)) => {
                if k == 5 {
                    return None;
                }
                if k == 4 {
                    n -= 1;
                    i = q + 1;
                    continue;
                }
                i = q + 1;
            }
            None => {
                return None;
            }
        }
    }
    Some(i)
}

// Component `c` of the repeat that starts at `p`.
fn component_from(s: &[u8], p: usize, t: &Classes, c: usize) -> Option<(usize, usize)>
    ensures { result ≡ at_component c (pieces_at t.now.syntax.service s.now p) }
{
    let mut i = p;
    let mut n = c;
    while let Some((q, k)) = piece_end(s, i, t) {
        if n == 0 {
            return Some((i, q));
        }
        if k != 2 {
            return None;
        }
        n -= 1;
        i = q + 1;
    }
    None
}

// Where component `c` of element `e` stands, in the element's first repeat; both are counted from 0.
pub fn component_span(s: &[u8], a: usize, t: &Classes, e: usize, c: usize) -> Option<(usize, usize)>
    ensures { result ≡ component_at t.now.syntax.service s.now a e c }
{
    match element_from(s, a, t, e) {
        Some(p) => component_from(s, p, t, c),
        None => None,
    }
}

// The octets of component `c` of element `e`; absent is empty.
pub fn component_part<'a>(s: &'a [u8], a: usize, t: &Classes, e: usize, c: usize) -> &'a [u8]
    ensures { result.now ≡ part_of s.now (component_at t.now.syntax.service s.now a e c) }
{
    match component_span(s, a, t, e, c) {
        Some((x, z)) => part(s, x, z),
        None => part(s, 0, 0),
    }
}

fn components_from(s: &[u8], p: usize, t: &Classes) -> usize
    ensures { result ≡ components (pieces_at t.now.syntax.service s.now p) }
{
    let mut i = p;
    let mut n: usize = 0;
    while let Some((q, k)) = piece_end(s, i, t) {
        n += 1;
        if k != 2 {
            return n;
        }
        i = q + 1;
    }
    n
}

// How many components element `e` has, in its first repeat.
pub fn count_components(s: &[u8], a: usize, t: &Classes, e: usize) -> usize
    ensures { result ≡ components (at_element e (pieces_at t.now.syntax.service s.now a)) }
{
    match element_from(s, a, t, e) {
        Some(p) => components_from(s, p, t),
        None => 0,
    }
}

fn repeats_from(s: &[u8], p: usize, t: &Classes) -> bool
    ensures { result ≡ repeats (pieces_at t.now.syntax.service s.now p) }
{
    let mut i = p;
    while let Some((q, k)) = piece_end(s, i, t) {
        if k == 3 {
            return true;
        }
        if k != 2 {
            return false;
        }
        i = q + 1;
    }
    false
}

// Whether element `e` repeats.
pub fn element_repeats(s: &[u8], a: usize, t: &Classes, e: usize) -> bool
    ensures { result ≡ repeats (at_element e (pieces_at t.now.syntax.service s.now a)) }
{
    match element_from(s, a, t, e) {
        Some(p) => repeats_from(s, p, t),
        None => false,
    }
}

// How many elements the segment at `a` has after its tag.
pub fn count_elements(s: &[u8], a: usize, t: &Classes) -> usize
    ensures { result ≡ elements (pieces_at t.now.syntax.service s.now a) }
{
    let mut i = a;
    let mut n: usize = 0;
    while let Some((q, k)) = piece_end(s, i, t) {
        if k == 5 {
            return n;
        }
        if k == 4 {
            n += 1;
            i = q + 1;
            continue;
        }
        i = q + 1;
    }
    n
}

// Whether anything in the segment at `a` repeats.
pub fn segment_repeats(s: &[u8], a: usize, t: &Classes) -> bool
    ensures { result ≡ any_repeats (pieces_at t.now.syntax.service s.now a) }
{
    let mut i = a;
    while let Some((q, k)) = piece_end(s, i, t) {
        if k == 3 {
            return true;
        }
        if k == 5 {
            return false;
        }
        i = q + 1;
    }
    false
}
