// F01: the run of messages that an AUTACK seals in the interchange which it refers to. What it finds in the AUTACK serves scope 3 too (crates/scope3).
#![tactic(auto)]

ghost use Rattle.std.specs.Prelude.{◌≡◌, List, ℕ, ◌+◌, ◌≤◌, T, length, Ok};
ghost use Rattle.std.proofs.Math.Seq.{slice};
ghost use Rattle.syntax.specs.Service.{fit};
ghost use Rattle.grammar.specs.Verdict.{verdict_of};
ghost use Rattle.syntax.specs.Content.{content};
ghost use Rattle.groups.specs.Groups.{name_at, ref_name_at};
ghost use Rattle.groups.specs.Calls.{Holds, answered_by, then};
ghost use Rattle.f01.specs.Targets.{target};
ghost use Rattle.f01.specs.F01.{run_in, f01_of};
ghost use Rattle.f01.specs.Referring.{target_from, referred_in, Refers, is_referred, given_by};
ghost use Rattle.ranges.specs.Told.{run_as, run_numbers, told_run, RunInside, run_part, start_of, end_of};

use beginning::begin;
use groups::calls::{Opened, message_named, missing};
use groups::links::link_named;
use groups::named::Range;
use ranges::scopes::{header_of, own_run};
use refusals::refusal;
use spans::span::span;
use syntax::classes::Classes;
use syntax::content::{part, same_reference};
use syntax::reading::{component_part, component_span};
use syntax::{Breach, Refusal};

// Where the 0020 and the 0062 of a USX stand in the octets, and the release there.
#[derive(Clone, Copy)]
pub struct Referred {
    pub interchange: Range,
    pub message: Range,
    pub release: u8,
}

// Where element `e` of the USX lies that stands at `usx`; empty where it is absent.
fn usx_element(s: &[u8], t: &Classes, usx: usize, e: usize) -> Range
    ensures { content t.now.syntax.service.release (slice result.start result.end s.now) ≡ name_at t.now.syntax.service s.now usx e }
{
    match component_span(s, usx, t, e, 0) {
        Some((start, end)) => Range { start, end },
        None => Range { start: 0, end: 0 },
    }
}

// The 0020 and the 0062 of the USX that stands at `usx`: its first and its seventh element.
fn usx_reference(s: &[u8], t: &Classes, usx: usize) -> Referred
    ensures { target_from s.now result ≡ target (ref_name_at t.now.syntax.service s.now usx 1) (name_at t.now.syntax.service s.now usx 7) }
{
    Referred {
        interchange: usx_element(s, t, usx, 1),
        message: usx_element(s, t, usx, 7),
        release: t.syntax.service.release,
    }
}

// In the message that is named: an AUTACK's header has this scope code, and a USY names it.
fn reference_in(s: &[u8], found: &Opened, scope: &[u8], header: &[u8]) -> Option<Referred>
    requires t { T (fit found.now.classes.syntax.service) × (found.now.layout.headers ≤ 9) × (length found.now.rows ≡ 18) }
    ensures { (m : List ℕ) → Holds s.now m found.now.classes.syntax found.now.layout found.now.rows → Refers scope.now s.now m header.now (Ok result) }
{
    let t = &found.classes;
    let c = found.layout;
    let _ = header_of(s, found, scope, header)?;
    let link = link_named(s, t, c.body, c.tail, header)?;
    Some(usx_reference(s, t, link.usx))
}

// What the first USX refers to under which a USY names the header `header` of the AUTACK `message`, if its scope code is `scope`; None: there is no such header
// or USY; Err: why the AUTACK's interchange is refused.
pub fn reference_named(
    s: &[u8],
    message: &[u8],
    scope: &[u8],
    header: &[u8],
) -> Result<Option<Referred>, Refusal>
    ensures { Refers scope.now s.now message.now header.now result }
{
    let Some(found) = message_named(s, message)? else {
        return Ok(None);
    };
    Ok(reference_in(s, &found, scope, header))
}

// Whether the 0020 of the UNB at `from` is the one that the AUTACK in `autack` refers to.
pub fn is_referred(
    s: &[u8],
    from: usize,
    t: &Classes,
    autack: &[u8],
    referred: Result<Option<Referred>, Refusal>,
) -> bool
    ensures { result ≡ is_referred (referred_in autack.now referred) (ref_name_at t.now.syntax.service s.now from 5) }
{
    let Ok(Some(x)) = referred else {
        return false;
    };
    let own = component_part(s, from, t, 5, 0);
    let other = part(autack, x.interchange.start, x.interchange.end);
    same_reference(own, t.syntax.service.release, other, x.release)
}

// A run that was sought in `s`, as a call gives it back.
pub fn given(s: &[u8], run: Result<Option<Range>, Breach>) -> Result<Range, Refusal>
    ensures { result ≡ given_by s.now run }
{
    match run {
        Ok(Some(x)) => Ok(x),
        Ok(None) => Err(missing()),
        Err(f) => Err(refusal(s, f)),
    }
}

// The run of the interchange `s`, if its 0020 is the one that is referred to. A function of its own in the machine's code too: in one frame with the search of the
// AUTACK it would take the stack of both.
#[inline(never)]
fn run_of(s: &[u8], autack: &[u8], referred: Option<Referred>) -> Result<Option<Range>, Breach>
    ensures value { given_by s.now result ≡ run_as (answered_by (verdict_of s.now) (λ i. then (referred_in autack.now (Ok referred)) (run_in i))) }
    ensures run_inside { RunInside (given_by s.now result) (length s.now) }
{
    let start = begin(s)?;
    let t = Classes::of(start.syntax);
    let Some(run) = span(s, start.at, &t)? else {
        return Ok(None);
    };
    if is_referred(s, start.at, &t, autack, Ok(referred)) {
        return Ok(Some(Range {
            start: run.start,
            end: run.end,
        }));
    }
    Ok(None)
}

// Start and end, in `referenced`, of the run that the header `header` of the AUTACK `message` in `autack` seals.
pub fn f01_places(
    autack: &[u8],
    referenced: &[u8],
    message: &[u8],
    header: &[u8],
) -> Result<Range, Refusal>
    ensures value { result ≡ run_as (f01_of autack.now referenced.now message.now header.now) }
    ensures result_value { told_run result ≡ run_numbers (f01_of autack.now referenced.now message.now header.now) }
    ensures run_inside { RunInside result (length referenced.now) }
{
    let referred = reference_named(autack, message, b"F01", header)?;
    given(referenced, run_of(referenced, autack, referred))
}

// The run itself: "for F01 a part of the referenced interchange, which is lent beside the AUTACK's and may be the same one". Empty and at 0 where it is refused.
pub fn f01_run<'a, 'r>(
    autack: &'a [u8],
    referenced: &'r [u8],
    message: &[u8],
    header: &[u8],
) -> &'r [u8]
    ensures result_value { result.now ≡ slice (start_of (run_part (f01_of autack.now referenced.now message.now header.now))) (end_of (run_part (f01_of autack.now referenced.now message.now header.now))) referenced.now }
    ensures ref_ptr_value { result.ref_ptr ≡ (referenced.entry.ref_ptr.0, start_of (run_part (f01_of autack.now referenced.now message.now header.now)) + referenced.entry.ref_ptr.1) }
{
    own_run(referenced, f01_places(autack, referenced, message, header))
}
