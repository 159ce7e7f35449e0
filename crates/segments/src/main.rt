#![tactic(auto)]

// For an interchange on standard input: each segment's place and tag, and its components as content, or the refusal that the
// syntax alone can tell (1, 2, 4, 5, 6, and 3 after them).
ghost use Rattle.std.specs.Prelude.{◌≡◌, Some, Err};
ghost use Rattle.segments.specs.Checked.{CheckedIn};
ghost use Rattle.segments.specs.Places.{place_text};

use beginning::begin;
use input::read_full;
use printing::{Output, Told};
use refusals::refusal;
use std::fmt::{self, Write};
use syntax::classes::Classes;
use syntax::content::{next_octet, part};
use syntax::cutting::{Cut, scan, tag_at};
use syntax::reading::piece_end;
use syntax::{Breach, Service};

// Where a piece stands in its segment, each counted from 1.
#[derive(Clone, Copy)]
struct Place {
    element: u64,
    repetition: u64,
    component: u64,
}

impl Place {
    // The place of the piece after one that ends in `k`. An interchange has at most 65535 octets, so no count comes near its bound.
    fn next(self, k: u8) -> Self {
        match k {
            4 => Place {
                element: self.element.saturating_add(1),
                repetition: 1,
                component: 1,
            },
            3 => Place {
                repetition: self.repetition.saturating_add(1),
                component: 1,
                ..self
            },
            _ => Place {
                component: self.component.saturating_add(1),
                ..self
            },
        }
    }
}

impl fmt::Display for Place {
    ghost output = { λ p. Some (place_text p) };

    fn fmt<W: fmt::Write>(&self, f: &mut fmt::Formatter<W>) -> fmt::Result {
        write!(f, "{}", self.element)?;
        if 1 < self.repetition {
            write!(f, "*{}", self.repetition)?;
        }
        write!(f, ".{}", self.component)
    }
}

fn print_content(out: &mut Output<impl Print>, x: &[u8], release: u8) {
    let mut i: usize = 0;
    while let Some((b, j)) = next_octet(x, i, release) {
        out.put(b);
        i = j;
    }
}

fn print_piece(out: &mut Output<impl Print>, x: &[u8], release: u8, w: Place) {
    let _ = write!(out, "  {w} ");
    print_content(out, x, release);
    out.put(b'\n');
}

// The elements of the segment at `at`. Its tag is the first piece, element 0, and is not printed here.
fn print_elements(out: &mut Output<impl Print>, s: &[u8], at: usize, t: &Classes) {
    let mut w = Place {
        element: 0,
        repetition: 1,
        component: 1,
    };
    let mut i = at;
    while let Some((q, k)) = piece_end(s, i, t) {
        if 0 < w.element {
            print_piece(out, part(s, i, q), t.syntax.service.release, w);
        }
        if k == 5 {
            return;
        }
        w = w.next(k);
        i = q + 1;
    }
}

fn refused(number: u8, place: usize) -> Result<usize, Breach>
    ensures { result ≡ Err (record { number = number; place = place }) }
{
    Err(Breach { number, place })
}

// A bad tag is told before what else was found of the segment: its end, or why it is refused.
fn tagged(s: &[u8], at: usize, v: Service, found: Result<usize, Breach>) -> Result<usize, Breach>
    requires { CheckedIn s.now at found }
    ensures { CheckedIn s.now at result }
{
    match tag_at(s, at, v) {
        None => refused(4, at),
        Some(_) => found,
    }
}

// The end of the segment at `at`, or why it is refused.
fn segment_at(s: &[u8], at: usize, t: &Classes) -> Result<usize, Breach>
    ensures { CheckedIn s.now at result }
{
    match scan(s, at, t) {
        Cut::Open => refused(4, at),
        Cut::Ends(e) => tagged(s, at, t.syntax.service, Ok(e)),
        Cut::Spoilt(_, b) => tagged(s, at, t.syntax.service, refused(3, b)),
    }
}

fn print_segment(out: &mut Output<impl Print>, s: &[u8], at: usize, t: &Classes) {
    let _ = write!(out, "{at} ");
    if let Some((a, b, c)) = tag_at(s, at, t.syntax.service) {
        out.put_all(&[a, b, c]);
    }
    out.put(b'\n');
    print_elements(out, s, at, t);
}

// The first refusal of the segments from `at` on, or none.
fn checked(s: &[u8], at: usize, t: &Classes) -> Result<(), Breach> {
    let mut i = at;
    while i < s.len() {
        i = segment_at(s, i, t)? + 1;
    }
    Ok(())
}

// Called where none is bad, so the loop ends by its test.
fn print_segments(out: &mut Output<impl Print>, s: &[u8], at: usize, t: &Classes) {
    let mut i = at;
    while i < s.len() {
        let Ok(e) = segment_at(s, i, t) else {
            return;
        };
        print_segment(out, s, i, t);
        i = e + 1;
    }
}

// Nothing is printed of an interchange that is refused but the refusal, so the segments are read twice.
fn list(out: &mut Output<impl Print>, s: &[u8]) -> Result<(), Breach> {
    let b = begin(s)?;
    let y = b.syntax;
    let t = Classes::of(y);
    checked(s, b.at, &t)?;
    print_segments(out, s, b.at, &t);
    Ok(())
}

fn list_all(rt: &impl Print, s: &[u8]) {
    let mut out = Output::new(rt);
    if let Err(breach) = list(&mut out, s) {
        let _ = writeln!(out, "{}", Told(refusal(s, breach)));
    }
    out.end();
}

// The buffer has one octet more than an interchange may have, so one that is too long is told.
fn main(rt: HostRuntime) {
    let mut space = [0u8; 65536];
    let n = read_full(&mut rt.reader(), &mut space);
    list_all(&rt, &space[..n]);
}
