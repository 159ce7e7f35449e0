// The links of an AUTACK: which USY names a header, and under which USX it stands.
ghost use Rattle.std.specs.Prelude.{◌≡◌, List, cond, ◌&&◌, ◌<◌, T, length};
ghost use Rattle.syntax.specs.Content.{compared};
ghost use Rattle.syntax.specs.Octets.{octets, same};
ghost use Rattle.syntax.specs.Service.{fit};
ghost use Rattle.syntax.specs.Tree.{Segment};
ghost use Rattle.groups.specs.Stand.{Row};
ghost use Rattle.groups.specs.Groups.{ref_name_at};
ghost use Rattle.groups.specs.Links.{tagged_at, link_from};

use syntax::classes::Classes;
use syntax::content::{bare, content_is, part, reference_is};
use syntax::cutting::stop;
use syntax::reading::component_part;

// Where the USX and the USY of a link stand.
#[derive(Clone, Copy)]
pub struct Places {
    pub usx: usize,
    pub usy: usize,
}

// Whether the segment at `at` has this tag.
fn is_tagged(s: &[u8], at: usize, tag: &[u8]) -> bool
    requires { at < length s.now }
    ensures { result ≡ tagged_at s.now at tag.now }
{
    content_is(part(s, at, at + 3), 32, tag)
}

// The last USX up to the segment at `at`, where `usx` is the last before it.
fn last_usx(s: &[u8], at: usize, usx: usize) -> usize
    requires { at < length s.now }
    ensures { result ≡ cond (tagged_at s.now at (octets "USX")) at usx }
{
    if is_tagged(s, at, b"USX") {
        return at;
    }
    usx
}

// Whether a USY stands at `at` and its 0534 is `reference`.
fn names_header(s: &[u8], at: usize, t: &Classes, reference: &[u8]) -> bool
    requires at_in_bounds { at < length s.now }
    ensures { result ≡ (tagged_at s.now at (octets "USY") && same (ref_name_at t.now.syntax.service s.now at 1) (compared reference.now)) }
{
    if is_tagged(s, at, b"USY") {
        let v = t.syntax.service;
        return reference_is(component_part(s, at, t, 1, 0), v.release, reference);
    }
    false
}

// The first USY from `body` on, before `tail`, whose 0534 is `reference`, with its USX.
fn link_from(s: &[u8], t: &Classes, body: usize, tail: usize, reference: &[u8]) -> Option<Places>
    requires t { T (fit t.now.syntax.service) }
    ensures { (gs : List Segment) → Row t.now.syntax.service s.now body gs tail → result ≡ link_from t.now.syntax.service body body gs (compared reference.now) }
{
    let mut usx = body;
    let mut at = body;
    while at < tail {
        match stop(s, at, t, 5) {
            Some(e) => {
                let x = last_usx(s, at, usx);
                if names_header(s, at, t, reference) {
                    return Some(Places { usx: x, usy: at });
                }
                usx = x;
                let next = e + 1;
                at = next;
            }
            None => {
                return None;
            }
        }
    }
    None
}

// The same: however many spaces stand at the reference's end, they are passed over once.
pub fn link_named(
    s: &[u8],
    t: &Classes,
    body: usize,
    tail: usize,
    reference: &[u8],
) -> Option<Places>
    requires t { T (fit t.now.syntax.service) }
    ensures { (gs : List Segment) → Row t.now.syntax.service s.now body gs tail → result ≡ link_from t.now.syntax.service body body gs (compared reference.now) }
{
    link_from(s, t, body, tail, bare(reference, 32))
}
