// The F01 run: the interchange is judged, and the run from the first UNH to the last UNT of its messages not of type AUTACK is told.
ghost use Rattle.std.specs.Prelude.{◌≡◌, ◌≤◌, ◌<◌, ◌*◌, T, length, Ok};
ghost use Rattle.syntax.specs.Service.{fit};
ghost use Rattle.walk.specs.Runs.{Fresh};
ghost use Rattle.spans.specs.Spanning.{step_of, section_of, told_as, SpanIs};

use syntax::Breach;
use syntax::classes::Classes;
use walk::sections::{Layout, next_section, unread};

// From the UNH of the first message to behind the UNT of the last.
#[derive(Clone, Copy)]
pub struct Run {
    pub start: usize,
    pub end: usize,
}

// After some messages: all were AUTACKs; the last one is in the run; AUTACKs lie behind the run; an AUTACK lies inside it, which no later message mends.
#[derive(Clone, Copy)]
enum Sofar {
    Before,
    Inside(Run),
    Behind(Run),
    Broken,
}

// One message more, from its UNH at `unh` to `end`.
fn joined(k: Sofar, autack: bool, unh: usize, end: usize) -> Sofar
    ensures { result ≡ step_of k autack unh end }
{
    match (k, autack) {
        (Sofar::Before, true) => Sofar::Before,
        (Sofar::Before, false) => Sofar::Inside(Run { start: unh, end }),
        (Sofar::Inside(x), false) => Sofar::Inside(Run {
            start: x.start,
            end,
        }),
        (Sofar::Inside(x), true) | (Sofar::Behind(x), true) => Sofar::Behind(x),
        (Sofar::Behind(_), false) | (Sofar::Broken, _) => Sofar::Broken,
    }
}

// A section more: a message that it closed is joined; UNB and UNZ change nothing.
fn after_section(k: Sofar, closed: bool, c: Layout) -> Sofar
    ensures { result ≡ section_of k closed c }
{
    if closed {
        return joined(k, c.autack, c.unh, c.end);
    }
    k
}

// None: there is no message but AUTACKs, or an AUTACK lies inside.
fn told(k: Sofar) -> Option<Run>
    ensures { Ok result ≡ told_as k }
{
    match k {
        Sofar::Inside(x) | Sofar::Behind(x) => Some(x),
        Sofar::Before | Sofar::Broken => None,
    }
}

// Every section from `from` on, with what is known of the run.
fn span_among(
    s: &[u8],
    from: usize,
    t: &Classes,
    names: &mut [u64],
    slots: &mut [u16],
    marks: &mut [usize],
    heads: &mut [usize; 36],
    rows: &mut [usize; 18],
) -> Result<Option<Run>, Breach>
    requires fresh { Fresh t.now.syntax s.now names.old slots.old }
    requires marks_len { (length marks.old ≡ 40) × (length heads.old ≡ 36) × (length rows.old ≡ 18) }
    ensures { SpanIs t.now.syntax s.now from result }
{
    let mut state = unread();
    let mut at = from;
    let mut k = Sofar::Before;
    while let Some(section) = next_section(s, at, t, state, marks, heads, names, slots, rows)? {
        k = after_section(k, section.closed, section.layout);
        state = section.state;
        at = section.next;
    }
    Ok(told(k))
}

// With a table of references and the slots that they are found by: their sizes are known where the code is made, as the library takes no memory of its own.
fn span_within<const NAMES: usize, const SLOTS: usize>(
    s: &[u8],
    from: usize,
    t: &Classes,
) -> Result<Option<Run>, Breach>
    requires t { T (fit t.now.syntax.service) }
    requires room { (length s.now ≤ 65535) × (length s.now ≤ 4 * NAMES) × (NAMES < SLOTS) × (SLOTS ≤ 65536) }
    ensures { SpanIs t.now.syntax s.now from result }
{
    let mut names = [0u64; NAMES];
    let mut slots = [0u16; SLOTS];
    let mut marks = [0usize; 40];
    let mut heads = [0usize; 36];
    let mut rows = [0usize; 18];
    span_among(
        s, from, t, &mut names, &mut slots, &mut marks, &mut heads, &mut rows,
    )
}

// The run of an interchange whose UNB stands at `from`; None: no message but AUTACKs, or an AUTACK inside; Err: why the interchange is refused.
pub fn span(s: &[u8], from: usize, t: &Classes) -> Result<Option<Run>, Breach>
    requires t { T (fit t.now.syntax.service) }
    requires s_len_bound { length s.now ≤ 65535 }
    ensures { SpanIs t.now.syntax s.now from result }
{
    if s.len() <= 2048 {
        return span_within::<512, 763>(s, from, t);
    }
    span_within::<16384, 20405>(s, from, t)
}
