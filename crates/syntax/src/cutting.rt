// Cutting: where a segment ends, its first octet outside the repertoire, its tag.
ghost use Rattle.std.specs.Prelude.{◌≡◌, [], ◌∷◌, false, ◌+◌, ◌≤◌, T, length, drop, Some};
ghost use Rattle.syntax.specs.Service.{fit};
ghost use Rattle.syntax.specs.Repertoire.{tag_octet};
ghost use Rattle.syntax.specs.Cutting.{stop_from, tag_of};
ghost use Rattle.syntax.specs.Scanning.{cut_at, cut_by};
ghost use Rattle.syntax.specs.Scanning.{Four};

use crate::Service;
use crate::classes::Classes;
use crate::repertoire::{OUTSIDE, RELEASE, TERMINATOR};

// A segment's end; its end and its first octet outside the repertoire; no end.
#[derive(Clone, Copy)]
pub enum Cut {
    Ends(usize),
    Spoilt(usize, usize),
    Open,
}

// The place of the first octet at or after `from` that is of kind `n` or above and not released.
pub fn stop(s: &[u8], from: usize, t: &Classes, n: u8) -> Option<usize>
    requires le_n { (2 ≤ n) × (n ≤ 5) }
    ensures { result ≡ stop_from t.now.syntax.service n false (drop from s.now) from }
{
    let mut i = from;
    while i < s.len() {
        let c = t.class(s[i]);
        if c < n {
            i += 1;
            continue;
        }
        if c < RELEASE {
            return Some(i);
        }
        if c == OUTSIDE {
            i += 1;
            continue;
        }
        i += 1;
        if s.len() <= i {
            return None;
        }
        i += 1;
    }
    None
}

fn spoilt(f: Option<usize>, b: usize) -> Cut
    ensures { result ≡ cut_by f (Some b) }
{
    match f {
        Some(e) => Cut::Spoilt(e, b),
        None => Cut::Open,
    }
}

// The classes of the four octets from `i` on, added up.
fn four(s: &[u8], i: usize, t: &Classes) -> usize
    requires i_in_bounds { i + 4 ≤ length s.now }
    ensures { Four t.now.syntax s.now i result }
{
    let a = usize::from(t.class(s[i]));
    let b = usize::from(t.class(s[i + 1]));
    let c = usize::from(t.class(s[i + 2]));
    let d = usize::from(t.class(s[i + 3]));
    a + b + (c + d)
}

// A place from which the cut is the same: behind as many fours of octets as hold nothing at which a scan stops.
// One test for four octets, as their classes add up to less than the terminator's only where each is less; eight at once would be
// read in vain where segments are short. Two fours a turn spare a test of the place.
pub fn run(s: &[u8], from: usize, t: &Classes) -> usize
    ensures { cut_at t.now.syntax s.now result ≡ cut_at t.now.syntax s.now from }
{
    if s.len() < 8 {
        return from;
    }
    let last = s.len() - 8;
    let mut i = from;
    while i <= last {
        if usize::from(TERMINATOR) <= four(s, i, t) {
            return i;
        }
        if usize::from(TERMINATOR) <= four(s, i + 4, t) {
            return i + 4;
        }
        i += 8;
    }
    i
}

// The segment at `from`: by fours up to where one holds a stop, then octet by octet. A release takes the octet that it frees at once.
pub fn scan(s: &[u8], from: usize, t: &Classes) -> Cut
    ensures { result ≡ cut_at t.now.syntax s.now from }
{
    let mut i = run(s, from, t);
    while i < s.len() {
        let c = t.class(s[i]);
        if c < TERMINATOR {
            i += 1;
            continue;
        }
        if c == TERMINATOR {
            return Cut::Ends(i);
        }
        if c == OUTSIDE {
            return spoilt(stop(s, i + 1, t, 5), i);
        }
        i += 1;
        if s.len() <= i {
            return Cut::Open;
        }
        let d = t.class(s[i]);
        if d == OUTSIDE {
            return spoilt(stop(s, i + 1, t, 5), i);
        }
        i += 1;
    }
    Cut::Open
}

pub fn tag_octet(b: u8) -> bool
    ensures { result ≡ tag_octet b }
{
    matches!(b, b'0'..=b'9' | b'A'..=b'Z')
}

fn tag_of(a: u8, b: u8, c: u8, d: u8, v: Service) -> Option<(u8, u8, u8)>
    ensures { result ≡ tag_of v (a ∷ b ∷ c ∷ d ∷ []) }
{
    if !tag_octet(a) {
        return None;
    }
    if !tag_octet(b) {
        return None;
    }
    if !tag_octet(c) {
        return None;
    }
    if d == v.element {
        return Some((a, b, c));
    }
    if d == v.terminator {
        return Some((a, b, c));
    }
    None
}

// The tag of the segment at `at`: three octets A to Z or 0 to 9, then an element separator or the terminator. None: it has no such tag.
pub fn tag_at(s: &[u8], at: usize, v: Service) -> Option<(u8, u8, u8)>
    ensures { result ≡ tag_of v (drop at s.now) }
{
    if s.len() < 4 {
        return None;
    }
    if s.len() - 4 < at {
        return None;
    }
    tag_of(s[at], s[at + 1], s[at + 2], s[at + 3], v)
}

// The same by the class table, of one octet after the other at once: letters and digits are the only ones of class 0, as none of them serves.
fn tag_by(a: u8, b: u8, c: u8, d: u8, t: &Classes) -> Option<(u8, u8, u8)>
    requires t { T (fit t.now.syntax.service) }
    ensures { result ≡ tag_of t.now.syntax.service (a ∷ b ∷ c ∷ d ∷ []) }
{
    let v = t.syntax.service;
    if usize::from(t.class(a)) + usize::from(t.class(b)) + usize::from(t.class(c)) != 0 {
        return None;
    }
    if d == v.element {
        return Some((a, b, c));
    }
    if d == v.terminator {
        return Some((a, b, c));
    }
    None
}

pub fn tag_in(s: &[u8], at: usize, t: &Classes) -> Option<(u8, u8, u8)>
    requires t { T (fit t.now.syntax.service) }
    ensures { result ≡ tag_of t.now.syntax.service (drop at s.now) }
{
    if s.len() < 4 {
        return None;
    }
    if s.len() - 4 < at {
        return None;
    }
    tag_by(s[at], s[at + 1], s[at + 2], s[at + 3], t)
}
