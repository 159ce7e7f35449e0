// The walk by sections: UNB, a whole message, or UNZ; of a message where its parts stand.
ghost use Rattle.std.specs.Prelude.{◌≡◌, ◌&&◌, not, ℕ, ◌<◌, length};
ghost use Rattle.syntax.specs.Content.{compared};
ghost use Rattle.syntax.specs.Octets.{same};
ghost use Rattle.elements.specs.Octets.{text_at};
ghost use Rattle.message.specs.Heads.{head_ref, head_flag};
ghost use Rattle.grammar.specs.Weighed as weighed;
ghost use Rattle.walk.specs.Layout.{spot_step, row_step, RowRoom};
ghost use Rattle.walk.specs.Runs.{unread_as, is_done, is_busy, Walking};
ghost use Rattle.walk.specs.Sections.{nameable_in, laid_out, passed_as, left_open, misplaced_as, ended_as, Starting, SectionEnds, Between, ReachedIs};

use crate::advance::advance;
use crate::layout::{Spots, opened, spotted};
use grammar::{Subset, is_autack};
use message::heads::is_free;
use message::kept::fresh_message;
use syntax::Breach;
use syntax::classes::Classes;
use syntax::content::{content_is, part};
use syntax::reading::component_part;
use turns::state::{Ahead, Phase, State, Stretch};

// Where the parts of a message stand: its UNH, its header groups, its body, its trailer groups, its UNT, and what comes behind it; how many headers and
// trailers it has; whether it is an AUTACK; its loads and their grams, and whether they are below zero; its 0062.
#[derive(Clone, Copy)]
pub struct Layout {
    pub unh: usize,
    pub heads: usize,
    pub body: usize,
    pub tail: usize,
    pub unt: usize,
    pub end: usize,
    pub headers: usize,
    pub trailers: usize,
    pub autack: bool,
    pub loads: usize,
    pub grams: u64,
    pub below: bool,
    pub reference: Stretch,
}

// After a section: the state, the place of what comes next, whether a message was closed, and then its layout.
#[derive(Clone, Copy)]
pub struct Section {
    pub state: State,
    pub layout: Layout,
    pub next: usize,
    pub closed: bool,
}

// Before UNB: nothing read.
pub fn unread() -> State
    ensures { result ≡ unread_as }
{
    let m = fresh_message(None);
    State {
        phase: Phase::Start,
        count: 0,
        slot: 0,
        unb: Stretch { start: 0, end: 0 },
        unh: Stretch { start: 0, end: 0 },
        message: m,
    }
}

// Whether UNZ was read.
fn is_done(p: Phase) -> bool
    ensures { result ≡ is_done p }
{
    matches!(p, Phase::Done)
}

// Whether a message is open.
fn is_busy(p: Phase) -> bool
    ensures { result ≡ is_busy p }
{
    matches!(p, Phase::Busy)
}

// How many headers a trailer at `at` chooses from: all `n` of them, none where no UST stands there. Most segments are told by their first octet.
pub fn nameable(s: &[u8], at: usize, n: usize) -> usize
    requires { (at < length s.now) × (at < 65536) }
    ensures { result ≡ nameable_in s.now at n }
{
    if n == 0 {
        return 0;
    }
    if s[at] != 85 {
        return 0;
    }
    if content_is(part(s, at, at + 3), 32, b"UST") {
        return n;
    }
    0
}

// Whether the trailer at `at` names header `i`, which no trailer has named yet.
pub fn names_free(s: &[u8], at: usize, t: &Classes, heads: &[usize; 36], i: usize) -> bool
    requires i_bound { i < 9 }
    ensures { result ≡ (same (head_ref t.now.syntax.service.release s.now heads.now i) (compared (text_at t.now.syntax.service s.now at 1 0)) && not (head_flag heads.now i)) }
{
    let v = t.syntax.service;
    is_free(s, v.release, heads, i, component_part(s, at, t, 1, 0))
}

// How far two counts are apart.
fn apart(a: u64, b: u64) -> u64
    ensures { result ≡ weighed.apart a b }
{
    a.abs_diff(b)
}

// The layout of the message `st` whose UNT stands from `at` to `next`.
fn laid_out(st: State, x: Spots, at: usize, next: usize) -> Layout
    ensures { result ≡ laid_out st x at next }
{
    let m = st.message;
    let a = m.autack;
    let u = m.sums;
    let w = st.unh;
    Layout {
        unh: x.unh,
        heads: x.heads,
        body: x.body,
        tail: x.tail,
        unt: at,
        end: next,
        headers: m.headers as usize,
        trailers: x.trailers,
        autack: is_autack(a),
        loads: u.loads as usize,
        grams: apart(u.grams, u.back),
        below: u.grams < u.back,
        reference: w,
    }
}

// Whether no message is open behind the segment.
fn is_outside(a: Ahead) -> bool
    ensures { result ≡ not (is_busy a.state.phase) }
{
    !is_busy(a.state.phase)
}

// Behind a section: the state, and of a message that was open at `at`, before its last segment, the layout.
fn passed(st: State, x: Spots, at: usize, a: Ahead) -> Result<Option<Section>, Breach>
    ensures { result ≡ passed_as st x at a }
{
    let p = st.phase;
    let z = a.state;
    Ok(Some(Section {
        state: z,
        next: a.next,
        closed: is_busy(p),
        layout: laid_out(st, x, at, a.next),
    }))
}

// The spots behind the segment at `at`, and in `rows` where its group starts.
fn spots_behind(x: Spots, rows: &mut [usize; 18], a: Ahead, at: usize) -> Spots
    requires { RowRoom a.state.message.group a.state.message.headers x.trailers }
    ensures value { result ≡ spot_step a.state.message.group x at a.next }
    ensures rows_after { rows.new ≡ row_step a.state.message.group rows.old a.state.message.headers x.trailers at }
{
    let z = a.state;
    let m = z.message;
    spotted(x, rows, m, at, a.next)
}

// The octets are over, and a message is open.
fn left_open(st: State, x: Spots, at: usize) -> Result<Option<Section>, Breach>
    ensures { result ≡ left_open st x at }
{
    Ok(Some(Section {
        state: st,
        next: at,
        closed: false,
        layout: laid_out(st, x, at, at),
    }))
}

// A section by octets whose place no store can change: what stands at `from`, between messages or before UNB. Each UST names a header not yet named:
// that is searched for here. One loop for every segment, with the one call of `advance`: so the state stays in its place, and is not copied with
// each segment.
fn section_in(
    s: &[u8],
    mut at: usize,
    t: &Classes,
    mut st: State,
    marks: &mut [usize],
    heads: &mut [usize; 36],
    names: &mut [u64],
    slots: &mut [u16],
    rows: &mut [usize; 18],
) -> Result<Option<Section>, Breach>
    requires { Starting t.now.syntax s.now st heads.old names.old slots.old at rows.old marks.old }
    ensures { SectionEnds t.now.syntax s.now st heads.old names.old slots.old at result heads.new names.new slots.new rows.new marks.new }
{
    let mut x = opened(at, at);
    while at < s.len() {
        let m = st.message;
        let n = nameable(s, at, m.headers as usize);
        let mut found = n;
        for i in 0..n {
            if names_free(s, at, t, heads, i) {
                found = i;
                break;
            }
        }
        let a = advance(s, at, t, st, marks, heads, names, slots, found)?;
        if is_outside(a) {
            return passed(st, x, at, a);
        }
        x = spots_behind(x, rows, a, at);
        st = a.state;
        at = a.next;
    }
    left_open(st, x, at)
}

// The input ends early, or octets stand after UNZ: 7.
fn misplaced(at: usize) -> Result<Option<Section>, Breach>
    ensures { result ≡ misplaced_as at }
{
    Err(Breach {
        number: 7,
        place: at,
    })
}

// Behind the last octet, at `at`: all was read if UNZ was.
fn ended(done: bool, at: usize) -> Result<Option<Section>, Breach>
    ensures { result ≡ ended_as done at }
{
    if done {
        return Ok(None);
    }
    misplaced(at)
}

// What stands at `from`, between messages or before UNB: UNB, a whole message, or UNZ; or, None, the end: UNZ was read, and nothing stands behind it. The octets go on as a slice of this call's own: of a
// lent one the compiler reads place and length again behind each store.
pub fn next_section(
    s: &[u8],
    from: usize,
    t: &Classes,
    st: State,
    marks: &mut [usize],
    heads: &mut [usize; 36],
    names: &mut [u64],
    slots: &mut [u16],
    rows: &mut [usize; 18],
) -> Result<Option<Section>, Breach>
    requires between { Between t.now.syntax s.now st heads.old names.old slots.old from rows.old marks.old }
    ensures by_index { (b : ℕ) (w : Walking t.now.syntax s.now b st heads.old names.old slots.old from) → ReachedIs w result heads.new names.new slots.new rows.new }
    ensures marks_len { length marks.new ≡ 40 }
{
    let n = s.len();
    let p = st.phase;
    let done = is_done(p);
    if n <= from {
        return ended(done, from);
    }
    if done {
        return misplaced(from);
    }
    section_in(&s[0..n], from, t, st, marks, heads, names, slots, rows)
}
