// The start of an interchange: UNA or none, then what UNB's first element says. Its definitions are in Opening.antt of `syntax`.
#![tactic(auto)]

ghost use Rattle.std.specs.Prelude.{◌≡◌, Bool, true, false, cond, eqb, length, drop, ◌≤◌, Some};
ghost use Rattle.syntax.specs.Service.{servant, differ, repetition_differs, fit, without_repetition};
ghost use Rattle.syntax.specs.Content.{content};
ghost use Rattle.syntax.specs.Cutting.{end_at};
ghost use Rattle.syntax.specs.Opening.{starts_una, una_service, read_una, opening_of, level_named, version_named, refused_unb, repeating, settled, goes, both_named, declared_at, is_unb, is_tag, is_there, begun_at, begun_of};

use syntax::classes::Classes;
use syntax::content::content_is;
use syntax::cutting::{run, stop, tag_at};
use syntax::opening::{Opening, Start, is_earlier};
use syntax::reading::component_part;
use syntax::{Breach, Level, Service, Syntax, Version};

// A printable octet 0x21 to 0x7E, no letter or digit.
fn servant_octet(b: u8) -> bool
    ensures { result ≡ servant b }
{
    matches!(b, b'!'..=b'/' | b':'..=b'@' | b'['..=b'`' | b'{'..=b'~')
}

fn optional_octet(b: u8) -> bool
    ensures { result ≡ cond (eqb b 32) true (servant b) }
{
    b == b' ' || servant_octet(b)
}

// Component, element and terminator are no spaces, so a release that is not in force equals none of them.
fn all_differ(v: Service) -> bool
    ensures { result ≡ differ v }
{
    v.terminator != v.release
        && v.element != v.release
        && v.element != v.terminator
        && v.component != v.release
        && v.component != v.terminator
        && v.component != v.element
        && (v.repetition == b' ' || repetition_differs(v))
}

fn repetition_differs(v: Service) -> bool
    ensures { result ≡ repetition_differs v }
{
    v.repetition != v.release
        && v.repetition != v.terminator
        && v.repetition != v.element
        && v.repetition != v.component
}

fn is_fit(v: Service) -> bool
    ensures { result ≡ fit v }
{
    servant_octet(v.component)
        && servant_octet(v.element)
        && optional_octet(v.release)
        && optional_octet(v.repetition)
        && servant_octet(v.terminator)
        && all_differ(v)
}

fn starts_una(s: &[u8]) -> bool
    ensures { result ≡ starts_una s.now }
{
    s.starts_with(b"UNA")
}

fn una_service(s: &[u8]) -> Service
    requires { 9 ≤ length s.now }
    ensures { result ≡ una_service s.now }
{
    Service {
        component: s[3],
        element: s[4],
        release: s[6],
        repetition: s[7],
        terminator: s[8],
    }
}

fn read_una(s: &[u8]) -> Result<Opening, Breach>
    ensures { result ≡ read_una s.now }
{
    if s.len() < 9 {
        return Err(Breach {
            number: 2,
            place: 0,
        });
    }
    let v = una_service(s);
    if is_fit(v) {
        return Ok(Opening {
            service: v,
            una: true,
            at: 9,
        });
    }
    Err(Breach {
        number: 2,
        place: 0,
    })
}

// Before UNB: refusals 1 and 2, or the service characters and the place of the first segment.
pub fn before_unb(s: &[u8]) -> Result<Opening, Breach>
    ensures { result ≡ opening_of s.now }
{
    if s.len() == 0 {
        return Err(Breach {
            number: 1,
            place: 0,
        });
    }
    if 65535 < s.len() {
        return Err(Breach {
            number: 1,
            place: 0,
        });
    }
    if starts_una(s) {
        return read_una(s);
    }
    Ok(Opening {
        service: Service {
            component: b':',
            element: b'+',
            release: b'?',
            repetition: b'*',
            terminator: b'\'',
        },
        una: false,
        at: 0,
    })
}

fn without_repetition(v: Service) -> Service
    ensures { result ≡ without_repetition v }
{
    Service {
        repetition: b' ',
        ..v
    }
}

fn level_named(x: &[u8], release: u8) -> Option<Level>
    ensures { result ≡ level_named (content release x.now) }
{
    if content_is(x, release, b"UNOA") {
        return Some(Level::A);
    }
    if content_is(x, release, b"UNOB") {
        return Some(Level::B);
    }
    if content_is(x, release, b"UNOC") {
        return Some(Level::C);
    }
    if content_is(x, release, b"UNOD") {
        return Some(Level::D);
    }
    None
}

fn version_named(x: &[u8], release: u8) -> Option<Version>
    ensures { result ≡ version_named (content release x.now) }
{
    if content_is(x, release, b"2") {
        return Some(Version::Two);
    }
    if content_is(x, release, b"3") {
        return Some(Version::Three);
    }
    if content_is(x, release, b"4") {
        return Some(Version::Four);
    }
    None
}

fn unb_refused(number: u8, place: usize) -> Result<Start, Breach>
    ensures { result ≡ refused_unb number place }
{
    Err(Breach { number, place })
}

fn is_repeating(n: Version) -> bool
    ensures { result ≡ repeating n }
{
    matches!(n, Version::Four)
}

// In versions 2 and 3 no repetition is in force, and a UNA may not name one.
fn settle(o: Opening, l: Level, n: Version) -> Result<Start, Breach>
    ensures { result ≡ settled o l n }
{
    let at = o.at;
    let v = o.service;
    if is_repeating(n) {
        return Ok(Start {
            syntax: Syntax {
                version: n,
                level: l,
                service: v,
            },
            at: at,
        });
    }
    if o.una {
        if v.repetition != 32 {
            return unb_refused(6, at);
        }
    }
    let w = without_repetition(v);
    Ok(Start {
        syntax: Syntax {
            version: n,
            level: l,
            service: w,
        },
        at: at,
    })
}

// Whether a level goes with a version: UNOD with version 2 alone.
fn goes_with(l: Level, n: Version) -> bool
    ensures { result ≡ goes l n }
{
    match l {
        Level::A => true,
        Level::B => true,
        Level::C => true,
        Level::D => is_earlier(n),
    }
}

// A level and a version that are known, where they go together.
fn named(o: Opening, l: Level, n: Version) -> Result<Start, Breach>
    ensures { result ≡ both_named o (Some l) (Some n) }
{
    if goes_with(l, n) {
        return settle(o, l, n);
    }
    unb_refused(6, o.at)
}

// 0001 and 0002, read with no repetition in force: `y` has none.
fn declared(s: &[u8], t: &Classes, o: Opening) -> Result<Start, Breach>
    ensures { result ≡ declared_at s.now t.now.syntax.service o }
{
    let release = t.syntax.service.release;
    let level = level_named(component_part(s, o.at, t, 1, 0), release);
    let version = version_named(component_part(s, o.at, t, 1, 1), release);
    match (level, version) {
        (Some(level), Some(version)) => named(o, level, version),
        _ => unb_refused(6, o.at),
    }
}

fn is_unb(g: Option<(u8, u8, u8)>) -> bool
    ensures { result ≡ is_unb g }
{
    matches!(g, Some((b'U', b'N', b'B')))
}

fn is_tag(g: Option<(u8, u8, u8)>) -> bool
    ensures { result ≡ is_tag g }
{
    g.is_some()
}

fn is_there(f: Option<usize>) -> bool
    ensures { result ≡ is_there f }
{
    f.is_some()
}

// Whether the segment at `at` has an end: looked for by fours as far as that goes.
fn has_end(s: &[u8], at: usize, t: &Classes) -> bool
    ensures { result ≡ is_there (end_at t.now.syntax.service s.now at) }
{
    is_there(stop(s, run(s, at, t), t, 5))
}

// The first segment: 5 where there is none, then 4, 5, 6.
fn begin_at(s: &[u8], o: Opening) -> Result<Start, Breach>
    ensures { result ≡ begun_at s.now o }
{
    let at = o.at;
    let v = without_repetition(o.service);
    if s.len() <= at {
        return unb_refused(5, at);
    }
    let y = Syntax {
        version: Version::Four,
        level: Level::C,
        service: v,
    };
    let t = Classes::of(y);
    if !has_end(s, at, &t) {
        return unb_refused(4, at);
    }
    let g = tag_at(s, at, v);
    if !is_tag(g) {
        return unb_refused(4, at);
    }
    if !is_unb(g) {
        return unb_refused(5, at);
    }
    declared(s, &t, o)
}

// The start of an interchange: refusals 1, 2, 4, 5 and 6, or its syntax and the place of UNB.
pub fn begin(s: &[u8]) -> Result<Start, Breach>
    ensures { result ≡ begun_of s.now }
{
    begin_at(s, before_unb(s)?)
}
