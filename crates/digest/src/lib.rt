// The digest of a named range: SHA-1 of exactly the octets that the range call hands back, where the header's first USA names it. Nothing is copied: the parts
// of the lent interchange are fed.
#![tactic(auto)]

ghost use Rattle.std.specs.Prelude.{◌≡◌, List, ◌++◌, ℕ, ◌+◌, ◌<◌, ◌≤◌, T, length};
ghost use Rattle.std.proofs.Math.Seq.{slice};
ghost use Rattle.syntax.specs.Service.{fit};
ghost use Rattle.syntax.specs.Refusals.{at_zero};
ghost use Rattle.grammar.specs.Lists.{Snoc};
ghost use Rattle.grammar.specs.Interchange.{Leaf, Certificate, header, message, show_header};
ghost use Rattle.grammar.specs.Places.{wide};
ghost use Rattle.grammar.specs.Named.{placed};
ghost use Rattle.elements.specs.Octets.{asked_at};
ghost use Rattle.groups.specs.Stand.{Stand};
ghost use Rattle.groups.specs.Calls.{Holds, given, or_missing};
ghost use Rattle.ranges.specs.Ranges.{parts};
ghost use Rattle.sha.specs.Sha.{sha1};
ghost use Rattle.digest.specs.Digests.{names_sha, first_of, usa_at, named_by, named_in, parts_octets, digested, digest1_of, digest2_of, digest_f01_of, digest3_of, digest_as, digest_numbers, told_digest};

use f01::f01_places;
use groups::calls::{Opened, message_named};
use groups::named::{Range, group_named, headers_of};
use ranges::scopes::{Parts, own_part, scope1_places, scope2_places};
use scope3::scope3_places;
use syntax::Refusal;
use syntax::classes::Classes;
use syntax::content::{content_is, part};
use syntax::cutting::stop;
use syntax::reading::{component_part, element_repeats};

// Whether a USA stands at `at`, its first element is unrepeated, and the fourth component of it, 0527, is 16.
fn usa_names(s: &[u8], at: usize, t: &Classes) -> bool
    requires at_in_bounds { at < length s.now }
    ensures { result ≡ names_sha (asked_at t.now.syntax.service s.now at) }
{
    content_is(part(s, at, at + 3), 32, b"USA")
        && !element_repeats(s, at, t, 1)
        && content_is(
            component_part(s, at, t, 1, 3),
            t.syntax.service.release,
            b"16",
        )
}

// Of the header group `g`: whether the segment behind its USH is such a USA.
fn header_names(s: &[u8], t: &Classes, g: Range) -> bool
    requires t { T (fit t.now.syntax.service) }
    ensures { (c : Leaf) (us : Snoc Leaf) (cs : Snoc Certificate) → Stand t.now.syntax.service s.now g.start (show_header (header c us cs)) → g.end ≡ g.start + wide t.now.syntax.service (show_header (header c us cs)) → result ≡ named_by (or_missing (first_of us)) }
{
    let Some(end) = stop(s, g.start, t, 5) else {
        return false;
    };
    let next = end + 1;
    if g.end <= next {
        return false;
    }
    if s.len() <= next {
        return false;
    }
    usa_names(s, next, t)
}

// In the message that is named.
fn names_in(s: &[u8], found: &Opened, header: &[u8]) -> bool
    requires t { T (fit found.now.classes.syntax.service) × (found.now.layout.headers ≤ 9) × (length found.now.rows ≡ 18) }
    ensures { (m : List ℕ) (h : Holds s.now m found.now.classes.syntax found.now.layout found.now.rows) → result ≡ named_by (or_missing (usa_at (placed (message h.o h.t) h.q) header.now)) }
{
    let t = &found.classes;
    match group_named(s, t, &found.rows, headers_of(found.layout), header) {
        Some(g) => header_names(s, t, g),
        None => false,
    }
}

// Whether the first USA directly after the USH of the header `header`, in the message `message`, names SHA-1.
fn names_sha(s: &[u8], message: &[u8], header: &[u8]) -> bool
    ensures { result ≡ named_in s.now message.now header.now }
{
    match message_named(s, message) {
        Ok(Some(found)) => names_in(s, &found, header),
        Ok(None) => false,
        Err(_) => false,
    }
}

// The header names another algorithm, or none.
fn unnamed() -> Refusal
    ensures { result ≡ at_zero 18 }
{
    Refusal {
        number: 18,
        place: 0,
        segment: 0,
    }
}

// The digest of two parts, one after the other.
fn digest_two(x: &[u8], y: &[u8]) -> [u8; 20]
    requires { length x.now + length y.now ≤ 4294967295 }
    ensures { result ≡ sha1 (x.now ++ y.now) }
{
    let empty = sha::start();
    let first = sha::feed(empty, x).unwrap_or(empty);
    let both = sha::feed(first, y).unwrap_or(first);
    sha::finish(both)
}

fn digest_one(x: &[u8]) -> [u8; 20]
    requires { length x.now ≤ 4294967295 }
    ensures { result ≡ sha1 x.now }
{
    let empty = sha::start();
    sha::finish(sha::feed(empty, x).unwrap_or(empty))
}

// The header part, then the body part, if the header names SHA-1.
fn parts_digest(s: &[u8], p: Parts, named: bool) -> Result<[u8; 20], Refusal>
    requires start_le_end { (p.header.start ≤ p.header.end) × (p.header.end ≤ length s.now) × (p.body.start ≤ p.body.end) × (p.body.end ≤ length s.now) }
    requires s_len_bound { length s.now ≤ 65535 }
    ensures { result ≡ digest_as (digested named (parts_octets s.now (given (parts p.header.start p.header.end p.body.start p.body.end)))) }
{
    if named {
        return Ok(digest_two(
            own_part(s, p.header.start, p.header.end),
            own_part(s, p.body.start, p.body.end),
        ));
    }
    Err(unnamed())
}

// The octets of a run, if the header names SHA-1.
fn run_digest(s: &[u8], x: Range, named: bool) -> Result<[u8; 20], Refusal>
    requires start_le_end { (x.start ≤ x.end) × (x.end ≤ length s.now) }
    requires s_len_bound { length s.now ≤ 65535 }
    ensures { result ≡ digest_as (digested named (given (slice x.start x.end s.now))) }
{
    if named {
        return Ok(digest_one(own_part(s, x.start, x.end)));
    }
    Err(unnamed())
}

// The digest of what a header of scope 1 seals.
pub fn digest_scope1(s: &[u8], message: &[u8], header: &[u8]) -> Result<[u8; 20], Refusal>
    ensures value { result ≡ digest_as (digest1_of s.now message.now header.now) }
    ensures result_value { told_digest result ≡ digest_numbers (digest1_of s.now message.now header.now) }
{
    let places = scope1_places(s, message, header)?;
    parts_digest(s, places, names_sha(s, message, header))
}

// The digest of what a header of scope 2 seals.
pub fn digest_scope2(s: &[u8], message: &[u8], header: &[u8]) -> Result<[u8; 20], Refusal>
    ensures value { result ≡ digest_as (digest2_of s.now message.now header.now) }
    ensures result_value { told_digest result ≡ digest_numbers (digest2_of s.now message.now header.now) }
{
    let run = scope2_places(s, message, header)?;
    run_digest(s, run, names_sha(s, message, header))
}

// The digest of what a header of scope F01 seals: the header stands in `autack`, the octets in `referenced`.
pub fn digest_f01(
    autack: &[u8],
    referenced: &[u8],
    message: &[u8],
    header: &[u8],
) -> Result<[u8; 20], Refusal>
    ensures value { result ≡ digest_as (digest_f01_of autack.now referenced.now message.now header.now) }
    ensures result_value { told_digest result ≡ digest_numbers (digest_f01_of autack.now referenced.now message.now header.now) }
{
    let run = f01_places(autack, referenced, message, header)?;
    run_digest(referenced, run, names_sha(autack, message, header))
}

// The digest of what a header of scope 3 seals: the header stands in `autack`, the octets in `referenced`.
pub fn digest_scope3(
    autack: &[u8],
    referenced: &[u8],
    message: &[u8],
    header: &[u8],
) -> Result<[u8; 20], Refusal>
    ensures value { result ≡ digest_as (digest3_of autack.now referenced.now message.now header.now) }
    ensures result_value { told_digest result ≡ digest_numbers (digest3_of autack.now referenced.now message.now header.now) }
{
    let run = scope3_places(autack, referenced, message, header)?;
    run_digest(referenced, run, names_sha(autack, message, header))
}
