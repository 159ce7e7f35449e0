// What a subset of AUTACK checks besides (number 8). It is read off the octets: USC has no fields noted, and USX's 0062 stands behind the last noted one.
ghost use Rattle.std.specs.Prelude.{◌≡◌, true, not, ◌&&◌, ◌≤◌, ◌+◌, leb, Some};
ghost use Rattle.std.proofs.Math.Seq.{slice};
ghost use Rattle.syntax.specs.Octets.{octets};
ghost use Rattle.syntax.specs.Content.{content};
ghost use Rattle.grammar.specs.Elements.{either, in_range, formed};
ghost use Rattle.grammar.specs.declared.Subset.TheVariants.{Gs1};
ghost use Rattle.elements.specs.Octets.{parts_at, repeated_at, asked_at};
ghost use Rattle.elements.specs.Kinds.{tag_kind};
ghost use Rattle.elements.specs.Fields.{Fields};
ghost use Rattle.elements.specs.Formed.{looked, subset_by, position_gs1, right_gs1};

use crate::Kind;
use crate::fields::Shape;
use crate::formed::{is_formed, not_empty, reference_there};
use grammar::{Subset, is_gs1};
use syntax::classes::Classes;
use syntax::content::content_is;
use syntax::reading::{component_part, count_components, element_repeats};

// Whether the element at position `p` has one component and does not repeat.
fn is_single(s: &[u8], at: usize, t: &Classes, p: usize) -> bool
    requires le_p { 1 ≤ p }
    ensures { result ≡ (not (repeated_at t.now.syntax.service s.now at p) && leb (parts_at t.now.syntax.service s.now at p) 1) }
{
    if element_repeats(s, at, t, p) {
        return false;
    }
    count_components(s, at, t, p) <= 1
}

// The position of the element that the subset of GS1 checks in a segment of this kind; 0 where it checks none.
fn position_in(k: Kind) -> usize
    ensures { result ≡ position_gs1 k }
{
    match k {
        Kind::Unb => 0,
        Kind::Unh => 0,
        Kind::Unt => 0,
        Kind::Unz => 0,
        Kind::Ush => 0,
        Kind::Usa => 0,
        Kind::Usc => 1,
        Kind::Usr => 0,
        Kind::Ust => 0,
        Kind::Usb => 1,
        Kind::Usx => 7,
        Kind::Usy => 0,
        Kind::Reserved => 0,
        Kind::Qty => 0,
        Kind::Cnt => 0,
        Kind::Other => 0,
    }
}

// 0503 is 1 or 2.
fn one_or_two(x: &[u8], release: u8) -> bool
    ensures { result ≡ in_range (either (octets "1") (octets "2")) (content release x.now) }
{
    if content_is(x, release, b"1") {
        return true;
    }
    content_is(x, release, b"2")
}

// What that element is: 0536 is there, 0503 is 1 or 2, 0062 is a reference.
fn is_right(x: &[u8], release: u8, k: Kind) -> bool
    ensures { result ≡ right_gs1 k (content release x.now) }
{
    match k {
        Kind::Unb => true,
        Kind::Unh => true,
        Kind::Unt => true,
        Kind::Unz => true,
        Kind::Ush => true,
        Kind::Usa => true,
        Kind::Usc => not_empty(x, release),
        Kind::Usr => true,
        Kind::Ust => true,
        Kind::Usb => one_or_two(x, release),
        Kind::Usx => reference_there(x, release),
        Kind::Usy => true,
        Kind::Reserved => true,
        Kind::Qty => true,
        Kind::Cnt => true,
        Kind::Other => true,
    }
}

// One way for the three kinds: the compiler puts it into the loop over segments, where three ways would cost every segment.
fn gs1_formed(s: &[u8], at: usize, t: &Classes, k: Kind) -> bool
    ensures { result ≡ subset_by k (Some Gs1) (asked_at t.now.syntax.service s.now at) }
{
    let p = position_in(k);
    if p < 1 {
        return true;
    }
    if !is_single(s, at, t, p) {
        return false;
    }
    let v = t.syntax.service;
    is_right(component_part(s, at, t, p, 0), v.release, k)
}

// 8, in a message of the subset `b`: the checked elements of the segment's row, then those that the subset checks besides.
pub fn formed_in(
    s: &[u8],
    at: usize,
    t: &Classes,
    marks: &[usize],
    f: Shape,
    k: Kind,
    b: Option<Subset>,
) -> bool
    requires fields { looked k ≡ true → Fields t.now.syntax.service s.now at f.size f.repeats marks.now }
    requires k_value { k ≡ tag_kind (slice at (at + 3) s.now) }
    ensures { result ≡ (formed t.now.syntax.version (asked_at t.now.syntax.service s.now at) && subset_by k b (asked_at t.now.syntax.service s.now at)) }
{
    if !is_formed(s, at, t.syntax, marks, f, k) {
        return false;
    }
    if is_gs1(b) {
        return gs1_formed(s, at, t, k);
    }
    true
}
