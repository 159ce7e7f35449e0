// Checked elements (number 8): by kind and position, from the fields that were noted.
ghost use Rattle.std.specs.Prelude.{◌≡◌, true, false, not, ◌&&◌, [], ◌∷◌, ◌≤◌, ◌+◌, length};
ghost use Rattle.std.proofs.Math.Seq.{slice};
ghost use Rattle.syntax.specs.Content.{blank, content};
ghost use Rattle.syntax.specs.Octets.{within};
ghost use Rattle.syntax.specs.Segment.{pieces_at, any_repeats};
ghost use Rattle.grammar.specs.Segments as named;
ghost use Rattle.grammar.specs.Loads.{control_unit, control_by};
ghost use Rattle.grammar.specs.Elements as checked;
ghost use Rattle.grammar.specs.Elements.{in_range, formed_as, formed_row, row, value_row, claim_row, formed, date_digits};
ghost use Rattle.elements.specs.Octets.{text_at, asked_at};
ghost use Rattle.elements.specs.Kinds.{tag_kind};
ghost use Rattle.elements.specs.Fields.{Marked, Fields};
ghost use Rattle.elements.specs.Formed.{control_of, looked};

use crate::Kind;
use crate::amounts::{amount_in, unit_in};
use crate::fields::Shape;
use crate::segment::Segment;
use syntax::content::{content_is, content_length, is_blank, next_octet};
use syntax::opening::is_earlier;
use syntax::{Syntax, Version};

// Whether a glance tells that the content has an octet: of two octets one is content at least, since a release frees the next, and one that is no
// release is.
fn filled(x: &[u8], release: u8) -> bool
    ensures { result ≡ true → 1 ≤ length (content release x.now) }
{
    if 2 <= x.len() {
        return true;
    }
    if x.len() == 0 {
        return false;
    }
    x[0] != release
}

// Whether the content has so many octets: no more than `x`. They are counted only where a glance does not settle it.
fn sized(x: &[u8], release: u8, least: usize, most: usize) -> bool
    ensures { result ≡ in_range (checked.any_text least most) (content release x.now) }
{
    if x.len() <= most {
        if least == 0 {
            return true;
        }
        if least == 1 {
            if filled(x, release) {
                return true;
            }
        }
    }
    let n = content_length(x, release);
    if n < least {
        return false;
    }
    n <= most
}

// Whether the content has an octet at all. They are counted only where a glance does not settle it.
pub fn not_empty(x: &[u8], release: u8) -> bool
    ensures { result ≡ in_range checked.not_empty (content release x.now) }
{
    if filled(x, release) {
        return true;
    }
    1 <= content_length(x, release)
}

// Whether a glance tells that the content has an octet that is no space: its first one is none, nor a release.
fn visible(x: &[u8], release: u8) -> bool
    ensures { result ≡ true → blank (content release x.now) ≡ false }
{
    if x.len() == 0 {
        return false;
    }
    let first = x[0];
    if first == 32 {
        return false;
    }
    first != release
}

// Whether the content of a reference has so many octets, spaces included, and is not made only of spaces.
fn reference_within(x: &[u8], release: u8, least: usize, most: usize) -> bool
    ensures { result ≡ in_range (checked.reference least most) (content release x.now) }
{
    if x.len() <= most {
        if least == 1 {
            if visible(x, release) {
                return true;
            }
        }
    }
    if sized(x, release, least, most) {
        let b = is_blank(x, release);
        return !b;
    }
    false
}

// Whether a reference of which no length is printed is there: it is not made only of spaces.
pub fn reference_there(x: &[u8], release: u8) -> bool
    ensures { result ≡ in_range checked.not_empty_reference (content release x.now) }
{
    if visible(x, release) {
        return true;
    }
    let b = is_blank(x, release);
    !b
}

// Whether the content is digits, and so many: one pass for both.
fn digits_within(x: &[u8], release: u8, least: usize, most: usize) -> bool
    ensures { result ≡ in_range (checked.digits least most) (content release x.now) }
{
    let mut i = 0;
    let mut n: usize = 0;
    while let Some((b, j)) = next_octet(x, i, release) {
        if b < 48 {
            return false;
        }
        if 57 < b {
            return false;
        }
        n += 1;
        i = j;
    }
    if n < least {
        return false;
    }
    n <= most
}

// A component's length is within bounds.
fn text(g: &Segment, p: usize, c: usize, least: usize, most: usize) -> bool
    requires le_p { (1 ≤ p) × (p ≤ 5) × (c ≤ 2) }
    ensures { result ≡ within least most (length (text_at g.now.syntax.service g.now.octets.now g.now.at p c)) }
{
    let v = g.syntax.service;
    sized(g.field(p, c), v.release, least, most)
}

// A component is not empty.
fn there(g: &Segment, p: usize, c: usize) -> bool
    requires le_p { (1 ≤ p) × (p ≤ 5) × (c ≤ 2) }
    ensures { result ≡ in_range checked.not_empty (text_at g.now.syntax.service g.now.octets.now g.now.at p c) }
{
    let v = g.syntax.service;
    not_empty(g.field(p, c), v.release)
}

// A component is digits, and so many.
pub fn digits(g: &Segment, p: usize, c: usize, least: usize, most: usize) -> bool
    requires le_p { (1 ≤ p) × (p ≤ 5) × (c ≤ 2) }
    ensures { result ≡ in_range (checked.digits least most) (text_at g.now.syntax.service g.now.octets.now g.now.at p c) }
{
    let v = g.syntax.service;
    digits_within(g.field(p, c), v.release, least, most)
}

// An element whose first component has a length; further ones may follow.
fn composite(g: &Segment, p: usize, least: usize, most: usize) -> bool
    requires le_p { (1 ≤ p) × (p ≤ 5) }
    ensures { result ≡ formed_as (checked.composite (checked.any_text least most ∷ [])) (asked_at g.now.syntax.service g.now.octets.now g.now.at) p }
{
    !g.repeated(p) && text(g, p, 0, least, most)
}

// An element of one component of a length.
fn single(g: &Segment, p: usize, least: usize, most: usize) -> bool
    requires le_p { (1 ≤ p) × (p ≤ 5) }
    ensures { result ≡ formed_as (checked.simple (checked.any_text least most ∷ [])) (asked_at g.now.syntax.service g.now.octets.now g.now.at) p }
{
    composite(g, p, least, most) && g.parts(p) <= 1
}

// An element of one component, a reference whose length is not printed.
fn single_there(g: &Segment, p: usize) -> bool
    requires le_p { (1 ≤ p) × (p ≤ 5) }
    ensures { result ≡ formed_as (checked.simple (checked.not_empty_reference ∷ [])) (asked_at g.now.syntax.service g.now.octets.now g.now.at) p }
{
    !g.repeated(p) && g.parts(p) <= 1 && reference_there(g.field(p, 0), g.syntax.service.release)
}

// An element of one component that is a reference.
fn single_reference(g: &Segment, p: usize, least: usize, most: usize) -> bool
    requires le_p { (1 ≤ p) × (p ≤ 5) }
    ensures { result ≡ formed_as (checked.simple (checked.reference least most ∷ [])) (asked_at g.now.syntax.service g.now.octets.now g.now.at) p }
{
    !g.repeated(p)
        && g.parts(p) <= 1
        && reference_within(g.field(p, 0), g.syntax.service.release, least, most)
}

fn single_digits(g: &Segment, p: usize, least: usize, most: usize) -> bool
    requires le_p { (1 ≤ p) × (p ≤ 5) }
    ensures { result ≡ formed_as (checked.simple (checked.digits least most ∷ [])) (asked_at g.now.syntax.service g.now.octets.now g.now.at) p }
{
    !g.repeated(p) && g.parts(p) <= 1 && digits(g, p, 0, least, most)
}

// 0563 1..3 : 0560 0..512
fn qualified_formed(g: &Segment, p: usize) -> bool
    requires le_p { (1 ≤ p) × (p ≤ 5) }
    ensures { result ≡ formed_as (checked.composite (checked.any_text 1 3 ∷ checked.any_text 0 512 ∷ [])) (asked_at g.now.syntax.service g.now.octets.now g.now.at) p }
{
    composite(g, p, 1, 3) && text(g, p, 1, 0, 512)
}

// S508: in the earlier edition it begins with 0560, 0 to 256.
fn value_formed(g: &Segment, p: usize) -> bool
    requires le_p { (1 ≤ p) × (p ≤ 5) }
    ensures { result ≡ formed_as (value_row g.now.syntax.version) (asked_at g.now.syntax.service g.now.octets.now g.now.at) p }
{
    let v = g.syntax.version;
    if is_earlier(v) {
        return composite(g, p, 0, 256);
    }
    qualified_formed(g, p)
}

// 0001 : 0002, of which no length is printed.
fn syntax_formed(g: &Segment) -> bool
    ensures { result ≡ formed_as (checked.composite (checked.not_empty ∷ checked.not_empty ∷ [])) (asked_at g.now.syntax.service g.now.octets.now g.now.at) 1 }
{
    !g.repeated(1) && there(g, 1, 0) && there(g, 1, 1)
}

fn date_formed(g: &Segment, n: usize) -> bool
    ensures { result ≡ formed_as (checked.composite (checked.digits n n ∷ checked.digits 4 4 ∷ [])) (asked_at g.now.syntax.service g.now.octets.now g.now.at) 4 }
{
    !g.repeated(4) && digits(g, 4, 0, n, n) && digits(g, 4, 1, 4, 4)
}

fn date_digits(v: Version) -> usize
    ensures { result ≡ date_digits v }
{
    match v {
        Version::Two => 6,
        Version::Three => 6,
        Version::Four => 8,
    }
}

// UNB. This and the next two are for callers that know the kind, so that it is not asked again.
pub fn unb_formed(g: &Segment) -> bool
    ensures { result ≡ formed_row (row g.now.syntax.version named.Unb) (asked_at g.now.syntax.service g.now.octets.now g.now.at) 1 }
{
    syntax_formed(g)
        && composite(g, 2, 1, 35)
        && composite(g, 3, 1, 35)
        && date_formed(g, date_digits(g.syntax.version))
        && single_reference(g, 5, 1, 14)
}

// UNH
pub fn unh_formed(g: &Segment) -> bool
    ensures { result ≡ formed_row (row g.now.syntax.version named.Unh) (asked_at g.now.syntax.service g.now.octets.now g.now.at) 1 }
{
    single_reference(g, 1, 1, 14) && composite(g, 2, 1, 6)
}

// UNT and UNZ: a count, and a reference.
pub fn end_formed(g: &Segment) -> bool
    ensures { result ≡ formed_row (row g.now.syntax.version named.Unt) (asked_at g.now.syntax.service g.now.octets.now g.now.at) 1 }
{
    single_digits(g, 1, 1, 6) && single_there(g, 2)
}

fn ush_formed(g: &Segment) -> bool
    ensures { result ≡ formed_row (row g.now.syntax.version named.Ush) (asked_at g.now.syntax.service g.now.octets.now g.now.at) 1 }
{
    single(g, 1, 1, 3)
        && single_reference(g, 2, 1, 14)
        && single(g, 3, 1, 3)
        && single(g, 4, 0, 3)
        && single(g, 5, 0, 3)
}

// 0588, which the earlier edition doesn't have.
fn claim_formed(g: &Segment) -> bool
    ensures { result ≡ formed_row (claim_row g.now.syntax.version) (asked_at g.now.syntax.service g.now.octets.now g.now.at) 2 }
{
    let edition = g.syntax.version;
    if is_earlier(edition) {
        return true;
    }
    single_digits(g, 2, 1, 6)
}

fn ust_formed(g: &Segment) -> bool
    ensures { result ≡ formed_row (row g.now.syntax.version named.Ust) (asked_at g.now.syntax.service g.now.octets.now g.now.at) 1 }
{
    single_reference(g, 1, 1, 14) && claim_formed(g)
}

fn usy_formed(g: &Segment) -> bool
    ensures { result ≡ formed_row (row g.now.syntax.version named.Usy) (asked_at g.now.syntax.service g.now.octets.now g.now.at) 1 }
{
    single_reference(g, 1, 1, 14) && value_formed(g, 2)
}

// The amount of a CNT: a unit in its third component, and digits as the unit asks in its second.
fn control_formed(g: &Segment) -> bool
    ensures { result ≡ control_by (control_unit (text_at g.now.syntax.service g.now.octets.now g.now.at 1 2)) (text_at g.now.syntax.service g.now.octets.now g.now.at 1 1) }
{
    let v = g.syntax.service;
    match unit_in(g.field(1, 2), v.release, 12, 9) {
        Some(u) => match amount_in(g.field(1, 1), v.release, u) {
            Some((_, _)) => true,
            None => false,
        },
        None => false,
    }
}

// CNT: where its qualifier is 1, one element of three components, a unit and an amount.
fn cnt_formed(g: &Segment, f: Shape) -> bool
    requires { Fields g.now.syntax.service g.now.octets.now g.now.at f.size f.repeats g.now.marks.now }
    ensures { result ≡ not (any_repeats (pieces_at g.now.syntax.service g.now.octets.now g.now.at)) && control_of (asked_at g.now.syntax.service g.now.octets.now g.now.at) }
{
    let v = g.syntax.service;
    if f.repeats {
        return false;
    }
    if !content_is(g.field(1, 0), v.release, b"1") {
        return true;
    }
    if f.size != 1 {
        return false;
    }
    if g.parts(1) != 3 {
        return false;
    }
    control_formed(g)
}

// The checked elements of a segment whose fields are noted.
fn noted_formed(g: &Segment, f: Shape, k: Kind) -> bool
    requires fields { Fields g.now.syntax.service g.now.octets.now g.now.at f.size f.repeats g.now.marks.now }
    requires k_value { k ≡ tag_kind (slice g.now.at (g.now.at + 3) g.now.octets.now) }
    requires looked { looked k ≡ true }
    ensures { result ≡ formed g.now.syntax.version (asked_at g.now.syntax.service g.now.octets.now g.now.at) }
{
    match k {
        Kind::Unb => unb_formed(g),
        Kind::Unh => unh_formed(g),
        Kind::Unt => end_formed(g),
        Kind::Unz => end_formed(g),
        Kind::Ush => ush_formed(g),
        Kind::Usa => true,
        Kind::Usc => true,
        Kind::Usr => value_formed(g, 1),
        Kind::Ust => ust_formed(g),
        Kind::Usb => single(g, 1, 1, 3),
        Kind::Usx => single_reference(g, 1, 1, 14),
        Kind::Usy => usy_formed(g),
        Kind::Reserved => true,
        Kind::Qty => !f.repeats,
        Kind::Cnt => cnt_formed(g, f),
        Kind::Other => true,
    }
}

// Whether the checked elements of a segment of kind `k` are there and well formed. Of a kind that is not looked into the fields need not be noted.
pub fn is_formed(s: &[u8], at: usize, y: Syntax, marks: &[usize], f: Shape, k: Kind) -> bool
    requires fields { looked k ≡ true → Fields y.service s.now at f.size f.repeats marks.now }
    requires k_value { k ≡ tag_kind (slice at (at + 3) s.now) }
    ensures { result ≡ formed y.version (asked_at y.service s.now at) }
{
    match k {
        Kind::Usa => true,
        Kind::Usc => true,
        Kind::Reserved => true,
        Kind::Other => true,
        _ => {
            let g = Segment {
                octets: s,
                at,
                syntax: y,
                marks,
            };
            noted_formed(&g, f, k)
        }
    }
}
