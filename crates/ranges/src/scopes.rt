// Scope 1 and scope 2: ranges of a message that is named by its 0062, under a header that is named by its 0534.
ghost use Rattle.std.specs.Prelude.{◌≡◌, ◌+◌, ◌≤◌, length};
ghost use Rattle.std.proofs.Math.Seq.{slice};
ghost use Rattle.syntax.specs.Octets.{octets};
ghost use Rattle.groups.specs.Calls.{Answered};
ghost use Rattle.ranges.specs.Ranges.{Run, scope1_of, scope2_of};
ghost use Rattle.ranges.specs.Told.{parts_as, part_numbers, told_parts, run_as, run_numbers, told_run, PartsInside, RunInside, header_part, body_part, run_part, start_of, end_of, header_found, trailer_found, parts_by, run_by};

use groups::calls::{Opened, message_named, missing};
use groups::named::{Range, group_named, headers_of, trailers_of};
use syntax::Refusal;
use syntax::content::content_is;
use syntax::reading::component_part;
use walk::sections::Layout;

// Of scope 1: where the header group and the body start and end.
#[derive(Clone, Copy)]
pub struct Parts {
    pub header: Range,
    pub body: Range,
}

// The header group with the 0534 `header`, if its scope code is `scope`.
pub fn header_of(s: &[u8], found: &Opened, scope: &[u8], header: &[u8]) -> Option<Range>
    requires headers_bound { (found.now.layout.headers ≤ 9) × (length found.now.rows ≡ 18) }
    ensures { result ≡ header_found found.now.classes.syntax.service s.now found.now.layout found.now.rows scope.now header.now }
{
    let t = &found.classes;
    let group = group_named(s, t, &found.rows, headers_of(found.layout), header)?;
    let code = component_part(s, group.start, t, 3, 0);
    if content_is(code, t.syntax.service.release, scope) {
        return Some(group);
    }
    None
}

fn parts_by(c: Layout, header: Option<Range>) -> Result<Parts, Refusal>
    ensures { result ≡ parts_by c header }
{
    let Some(header) = header else {
        return Err(missing());
    };
    Ok(Parts {
        header,
        body: Range {
            start: c.body,
            end: c.tail,
        },
    })
}

// From the USH to the octet before the associated UST.
fn run_by(header: Option<Range>, trailer: Option<Range>) -> Result<Range, Refusal>
    ensures { result ≡ run_by header trailer }
{
    match (header, trailer) {
        (Some(h), Some(t)) => Ok(Range {
            start: h.start,
            end: t.start,
        }),
        _ => Err(missing()),
    }
}

// Start and end of the header part, and of the body part, that are sealed by scope 1.
pub fn scope1_places(s: &[u8], message: &[u8], header: &[u8]) -> Result<Parts, Refusal>
    ensures value { result ≡ parts_as (scope1_of s.now message.now header.now) }
    ensures result_value { told_parts result ≡ part_numbers (scope1_of s.now message.now header.now) }
    ensures parts_inside { PartsInside result (length s.now) }
{
    let Some(found) = message_named(s, message)? else {
        return Err(missing());
    };
    parts_by(found.layout, header_of(s, &found, b"1", header))
}

// Start and end of the run that is sealed by scope 2.
pub fn scope2_places(s: &[u8], message: &[u8], header: &[u8]) -> Result<Range, Refusal>
    ensures value { result ≡ run_as (scope2_of s.now message.now header.now) }
    ensures result_value { told_run result ≡ run_numbers (scope2_of s.now message.now header.now) }
    ensures run_inside { RunInside result (length s.now) }
{
    let Some(found) = message_named(s, message)? else {
        return Err(missing());
    };
    let trailers = trailers_of(found.layout);
    run_by(
        header_of(s, &found, b"2", header),
        group_named(s, &found.classes, &found.rows, trailers, header),
    )
}

// The octets from `start` to before `end`: the caller's own.
pub fn own_part<'a>(s: &'a [u8], start: usize, end: usize) -> &'a [u8]
    requires { (start ≤ end) × (end ≤ length s.now) }
    ensures result_value { result.now ≡ slice start end s.now }
    ensures ref_ptr_value { result.ref_ptr ≡ (s.entry.ref_ptr.0, start + s.entry.ref_ptr.1) }
{
    &s[start..end]
}

// The octets of a run that was sought; empty and at 0 where it is refused.
pub fn own_run<'a>(s: &'a [u8], run: Result<Range, Refusal>) -> &'a [u8]
    requires { RunInside run (length s.now) }
    ensures result_value { (x : Answered Run) → run ≡ run_as x → result.now ≡ slice (start_of (run_part x)) (end_of (run_part x)) s.now }
    ensures ref_ptr_value { (x : Answered Run) → run ≡ run_as x → result.ref_ptr ≡ (s.entry.ref_ptr.0, start_of (run_part x) + s.entry.ref_ptr.1) }
{
    match run {
        Ok(r) => own_part(s, r.start, r.end),
        Err(_) => own_part(s, 0, 0),
    }
}

// The header part; empty and at 0 where it is refused.
pub fn scope1_header<'a>(s: &'a [u8], message: &[u8], header: &[u8]) -> &'a [u8]
    ensures result_value { result.now ≡ slice (start_of (header_part (scope1_of s.now message.now header.now))) (end_of (header_part (scope1_of s.now message.now header.now))) s.now }
    ensures ref_ptr_value { result.ref_ptr ≡ (s.entry.ref_ptr.0, start_of (header_part (scope1_of s.now message.now header.now)) + s.entry.ref_ptr.1) }
{
    match scope1_places(s, message, header) {
        Ok(p) => own_part(s, p.header.start, p.header.end),
        Err(_) => own_part(s, 0, 0),
    }
}

// The body part; empty and at 0 where it is refused.
pub fn scope1_body<'a>(s: &'a [u8], message: &[u8], header: &[u8]) -> &'a [u8]
    ensures result_value { result.now ≡ slice (start_of (body_part (scope1_of s.now message.now header.now))) (end_of (body_part (scope1_of s.now message.now header.now))) s.now }
    ensures ref_ptr_value { result.ref_ptr ≡ (s.entry.ref_ptr.0, start_of (body_part (scope1_of s.now message.now header.now)) + s.entry.ref_ptr.1) }
{
    match scope1_places(s, message, header) {
        Ok(p) => own_part(s, p.body.start, p.body.end),
        Err(_) => own_part(s, 0, 0),
    }
}

// The run of scope 2; empty and at 0 where it is refused.
pub fn scope2_run<'a>(s: &'a [u8], message: &[u8], header: &[u8]) -> &'a [u8]
    ensures result_value { result.now ≡ slice (start_of (run_part (scope2_of s.now message.now header.now))) (end_of (run_part (scope2_of s.now message.now header.now))) s.now }
    ensures ref_ptr_value { result.ref_ptr ≡ (s.entry.ref_ptr.0, start_of (run_part (scope2_of s.now message.now header.now)) + s.entry.ref_ptr.1) }
{
    own_run(s, scope2_places(s, message, header))
}
