// Signature values: what the seal of a header carries, recovered by the filter that the header names.
#![tactic(auto)]

pub mod filter;

ghost use Rattle.std.specs.Prelude.{◌≡◌, List, ℕ, ◌+◌, ◌≤◌, T};
ghost use Rattle.std.proofs.Math.Option.{Option};
ghost use Rattle.syntax.specs.Content.{content};
ghost use Rattle.syntax.specs.Service.{fit};
ghost use Rattle.grammar.specs.Segments.{value_part};
ghost use Rattle.grammar.specs.Interchange.{Leaf, trailer, show_trailer};
ghost use Rattle.grammar.specs.Places.{wide};
ghost use Rattle.groups.specs.Stand.{Stand};
ghost use Rattle.groups.specs.Calls.{Holds};
ghost use Rattle.groups.specs.Parts.{body_in};
ghost use Rattle.writing.specs.Written.{Writes};
ghost use Rattle.values.specs.Values.{usr_text, trailer_text, link_text, value_text, value_in, value_of};

use crate::filter::value_of;
use groups::calls::{Opened, message_named};
use groups::links::link_named;
use groups::named::{Range, group_named, headers_of, trailers_of};
use syntax::classes::Classes;
use syntax::content::part;
use syntax::cutting::stop;
use syntax::opening::is_earlier;
use syntax::reading::component_part;
use syntax::{Refusal, Version};
use writing::refused;

// Which component of S508 is 0560: in the earlier edition it begins with it, else a qualifier stands before it.
fn value_part(v: Version) -> usize
    ensures { result ≡ value_part v }
{
    if is_earlier(v) {
        return 0;
    }
    1
}

// The 0560 of the USR that stands behind the UST in the trailer group `g`; empty where there is none.
fn usr_text<'a>(s: &'a [u8], t: &Classes, g: Range) -> &'a [u8]
    requires t { T (fit t.now.syntax.service) }
    ensures { (c : Leaf) (o : Option Leaf) → Stand t.now.syntax.service s.now g.start (show_trailer (trailer c o)) → g.end ≡ g.start + wide t.now.syntax.service (show_trailer (trailer c o)) → content t.now.syntax.service.release result.now ≡ usr_text t.now.syntax.version o }
{
    let Some(e) = stop(s, g.start, t, 5) else {
        return part(s, 0, 0);
    };
    let next = e + 1;
    if next < g.end {
        return component_part(s, next, t, 1, value_part(t.syntax.version));
    }
    part(s, 0, 0)
}

// In a message that is no AUTACK: the value behind the trailer that names the header.
fn trailer_text<'a>(s: &'a [u8], x: &Opened, header: &[u8]) -> &'a [u8]
    requires x { T (fit x.now.classes.syntax.service) × (x.now.layout.trailers ≤ 9) }
    ensures { (m : List ℕ) (h : Holds s.now m x.now.classes.syntax x.now.layout x.now.rows) → content x.now.classes.syntax.service.release result.now ≡ trailer_text x.now.classes.syntax.version h.o header.now }
{
    match group_named(s, &x.classes, &x.rows, trailers_of(x.layout), header) {
        Some(g) => usr_text(s, &x.classes, g),
        None => part(s, 0, 0),
    }
}

// In an AUTACK: the value in the first USY that names the header.
fn link_text<'a>(s: &'a [u8], x: &Opened, header: &[u8]) -> &'a [u8]
    requires x { T (fit x.now.classes.syntax.service) }
    ensures { (m rows : List ℕ) (h : Holds s.now m x.now.classes.syntax x.now.layout rows) → content x.now.classes.syntax.service.release result.now ≡ link_text x.now.classes.syntax.version (body_in h.o) header.now }
{
    let t = &x.classes;
    match link_named(s, t, x.layout.body, x.layout.tail, header) {
        Some(link) => component_part(s, link.usy, t, 2, value_part(t.syntax.version)),
        None => part(s, 0, 0),
    }
}

// The text of the value that the header's seal carries.
fn value_text<'a>(s: &'a [u8], x: &Opened, header: &[u8]) -> &'a [u8]
    requires x { T (fit x.now.classes.syntax.service) × (x.now.layout.trailers ≤ 9) }
    ensures { (m : List ℕ) (h : Holds s.now m x.now.classes.syntax x.now.layout x.now.rows) → content x.now.classes.syntax.service.release result.now ≡ value_text x.now.classes.syntax.version h.o header.now }
{
    if x.layout.autack {
        return link_text(s, x, header);
    }
    trailer_text(s, x, header)
}

// In the message that is named.
fn value_in(s: &[u8], x: &Opened, header: &[u8], out: &mut [u8]) -> Result<usize, Refusal>
    requires x { T (fit x.now.classes.syntax.service) × (x.now.layout.headers ≤ 9) × (x.now.layout.trailers ≤ 9) }
    ensures { (m : List ℕ) (h : Holds s.now m x.now.classes.syntax x.now.layout x.now.rows) → Writes (value_in x.now.classes.syntax.version h.o header.now) out.old result out.new }
{
    let t = &x.classes;
    let Some(g) = group_named(s, t, &x.rows, headers_of(x.layout), header) else {
        return refused(13);
    };
    let text = value_text(s, x, header);
    let code = component_part(s, g.start, t, 5, 0);
    value_of(t.syntax.version, text, code, t.syntax.service.release, out)
}

// The value that the seal of the header `header` in the message `message` carries, into `out`.
pub fn value(s: &[u8], message: &[u8], header: &[u8], out: &mut [u8]) -> Result<usize, Refusal>
    ensures { Writes (value_of s.now message.now header.now) out.old result out.new }
{
    let Some(found) = message_named(s, message)? else {
        return refused(13);
    };
    value_in(s, &found, header, out)
}
