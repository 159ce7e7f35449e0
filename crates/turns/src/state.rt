// What is kept of what was read so far, and the turn of one segment in it.
ghost use Rattle.std.specs.Prelude.{◌≡◌, true, false, ◌&&◌, List, ℕ, ◌+◌, ◌≤◌, ◌<◌, T, eqb, length, Err};
ghost use Rattle.std.proofs.Math.Seq.{slice};
ghost use Rattle.syntax.specs.Service.{fit};
ghost use Rattle.grammar.specs.Elements.{in_range, digits, formed};
ghost use Rattle.grammar.specs.Rules.{subset_of};
ghost use Rattle.elements.specs.Kinds.{tag_kind};
ghost use Rattle.elements.specs.Octets.{text_at, asked_at};
ghost use Rattle.elements.specs.Fields.{Marked, Fields, FieldsAs};
ghost use Rattle.message.specs.Heads.{head_flags};
ghost use Rattle.message.specs.Summary.{number_at, pairs_counted, total_right, all_named, may_come, at_busy};
ghost use Rattle.message.specs.Steps.{step_m, summary_in, Roomy, Sought, MovedIs};
ghost use Rattle.turns.specs.Held.{unseen_as, seen_in, Entered, Sighted, state_in, stretch_in, repeated_ref, after_unb, after_unh, after_other, Ready, decided_from, StepIs};
ghost use Rattle.elements.specs.Formed.{looked};
ghost use Rattle.turns.specs.declared.state.Phase.TheVariants.{Start, Idle, Busy, Done};
ghost use Rattle.elements.specs.declared.Kind.TheVariants.{Unb, Unh, Unt, Unz, Ust};

use elements::fields::{Shape, field_end, field_start, fields};
use elements::formed::{end_formed, unb_formed, unh_formed};
use elements::segment::Segment;
use elements::subset::formed_in;
use elements::{Kind, kind_of};
use grammar::Subset;
use message::heads::all_named;
use message::items::{on_cnt, on_other, on_qty, on_usb};
use message::kept::{fresh_message, grown_to, pairs_right, totals_right, usa_group, usc_group};
use message::order::may_come;
use message::steps::{in_header, number_in, on_ush, on_usr, on_ust, on_usy};
use message::{Group, Message, Pair};
use references::refs::{note, offer};
use syntax::classes::Classes;
use syntax::content::{bare, content_is, part, same_reference};
use syntax::cutting::{Cut, scan, tag_in};
use syntax::opening::is_earlier;
use syntax::reading::component_part;
use syntax::{Breach, Syntax, Version};

// Where the interchange stands: before UNB, between messages, in one, behind UNZ.
#[derive(Clone, Copy)]
pub enum Phase {
    Start,
    Idle,
    Busy,
    Done,
}

// From `start` up to, not including, `end`.
#[derive(Clone, Copy)]
pub struct Stretch {
    pub start: usize,
    pub end: usize,
}

// What was read so far. References are kept by place: UNB's 0020, the open message's 0062, and the slot that it is offered.
// What is seldom used comes first: a refusal lies in the same octets, and the compiler cuts what comes first in two for its number.
#[derive(Clone, Copy)]
pub struct State {
    pub slot: usize,
    pub unb: Stretch,
    pub unh: Stretch,
    pub message: Message,
    pub count: u32,
    pub phase: Phase,
}

// A segment that can be read: its end and kind, or 4, or 3; and if it is looked into, its shape: its fields are then in the marks.
#[derive(Clone, Copy)]
pub struct Sight {
    pub looked: Result<(usize, Kind), Breach>,
    pub shape: Shape,
}

// After a segment: the state, the place of the next one, and what the segment was.
#[derive(Clone, Copy)]
pub struct Ahead {
    pub state: State,
    pub next: usize,
    pub kind: Kind,
}

fn unseen(number: u8, place: usize) -> Result<(usize, Kind), Breach>
    ensures { result ≡ unseen_as number place }
{
    Err(Breach { number, place })
}

fn seen(c: Cut, k: Kind, at: usize) -> Result<(usize, Kind), Breach>
    ensures { result ≡ seen_in c k at }
{
    match c {
        Cut::Ends(e) => Ok((e, k)),
        Cut::Spoilt(_, q) => unseen(3, q),
        Cut::Open => unseen(4, at),
    }
}

// Without fields.
fn seen_alone(x: Result<(usize, Kind), Breach>) -> Sight
    ensures { result.looked ≡ x }
{
    Sight {
        looked: x,
        shape: Shape {
            size: 0,
            repeats: false,
        },
    }
}

// Whether a segment of this kind is looked into.
fn looked_into(k: Kind) -> bool
    ensures { result ≡ looked k }
{
    !matches!(k, Kind::Usa | Kind::Usc | Kind::Reserved | Kind::Other)
}

// A segment whose fields were read on the way to its end. Where that failed, a scan tells why.
fn entered(p: Option<(usize, Shape)>, s: &[u8], at: usize, t: &Classes, k: Kind) -> Sight
    ensures { (m : List ℕ) → FieldsAs t.now.syntax s.now at p m → Entered t.now.syntax s.now at k result m }
{
    match p {
        Some((e, f)) => Sight {
            looked: Ok((e, k)),
            shape: f,
        },
        None => seen_alone(seen(scan(s, at, t), k, at)),
    }
}

// The segment at `at`: 4, then 3. One that is looked into is read only once; of the others only the end is looked for, from behind the tag.
pub fn look(s: &[u8], at: usize, t: &Classes, marks: &mut [usize]) -> Sight
    requires t { T (fit t.now.syntax.service) × (length marks.old ≡ 40) }
    ensures { Sighted t.now.syntax s.now at result marks.new }
{
    match tag_in(s, at, t) {
        None => seen_alone(unseen(4, at)),
        Some((a, b, d)) => {
            let k = kind_of(a, b, d);
            if looked_into(k) {
                return entered(fields(s, at, t, marks), s, at, t, k);
            }
            seen_alone(seen(scan(s, at + 3, t), k, at))
        }
    }
}

fn stopped(number: u8, place: usize) -> Result<State, Breach>
    ensures { result ≡ Err (record { number = number; place = place }) }
{
    Err(Breach { number, place })
}

// Where the element at position `p` stands.
fn stretch_in(marks: &[usize], p: usize) -> Stretch
    requires { (length marks.now ≡ 40) × (1 ≤ p) × (p ≤ 5) }
    ensures { result ≡ stretch_in marks.now p }
{
    let a = field_start(marks, p, 0);
    let e = field_end(marks, p, 0);
    Stretch { start: a, end: e }
}

// Whether the second element, a reference, has the content of what stands at `w`.
fn is_repeated(g: &Segment, w: Stretch) -> bool
    ensures { result ≡ repeated_ref g.now.syntax.service g.now.octets.now g.now.at w }
{
    let v = g.syntax.service;
    let x = g.field(2, 0);
    same_reference(x, v.release, part(g.octets, w.start, w.end), v.release)
}

// After UNB: between messages, none so far.
fn after_unb(st: State, u: Stretch) -> State
    ensures { result ≡ after_unb st u }
{
    State {
        phase: Phase::Idle,
        count: 0,
        unb: u,
        ..st
    }
}

// After UNH: in the message that it begins.
fn after_unh(st: State, slot: usize, w: Stretch, m: Message) -> State
    ensures { result ≡ after_unh st slot w m }
{
    State {
        phase: Phase::Busy,
        slot,
        unh: w,
        message: m,
        ..st
    }
}

// After any other segment: the references stay.
fn after_other(st: State, phase: Phase, count: u32, m: Message) -> State
    ensures { result ≡ after_other st phase count m }
{
    State {
        phase,
        count,
        message: m,
        ..st
    }
}

// The first segment, UNB: 8.
fn on_unb(
    s: &[u8],
    at: usize,
    next: usize,
    y: Syntax,
    st: State,
    f: Shape,
    marks: &[usize],
    heads: &[usize; 36],
    names: &[u64],
    slots: &[u16],
) -> Result<State, Breach>
    requires ready { Ready y s.now st heads.now names.now slots.now at next Unb f marks.now }
    requires phase_value { (st.phase ≡ Start) × (st.count ≡ 0) }
    ensures { StepIs (decided_from y.version (state_in y.service.release s.now st heads.now names.now) (asked_at y.service s.now at) at) result y.service.release s.now heads.now names.now slots.now next }
{
    let segment = Segment {
        octets: s,
        at,
        syntax: y,
        marks,
    };
    if !unb_formed(&segment) {
        return stopped(8, at);
    }
    Ok(after_unb(st, stretch_in(marks, 5)))
}

// The subset of AUTACK that the message is written by, whose UNH stands at `at`.
fn subset_in(s: &[u8], at: usize, t: &Classes, marks: &[usize]) -> Option<Subset>
    requires marked { Marked t.now.syntax.service s.now at marks.now }
    ensures { result ≡ subset_of (text_at t.now.syntax.service s.now at 2 0) (text_at t.now.syntax.service s.now at 2 4) }
{
    let segment = Segment {
        octets: s,
        at,
        syntax: t.syntax,
        marks,
    };
    let v = t.syntax.service;
    if content_is(segment.field(2, 0), v.release, b"AUTACK") {
        if content_is(component_part(s, at, t, 2, 4), v.release, b"EAN001") {
            return Some(Subset::Gs1);
        }
        return Some(Subset::F01);
    }
    None
}

// UNH between messages: 8, then 0062 once in an interchange.
fn on_unh(
    s: &[u8],
    at: usize,
    next: usize,
    t: &Classes,
    st: State,
    f: Shape,
    marks: &[usize],
    heads: &[usize; 36],
    names: &mut [u64],
    slots: &[u16],
) -> Result<State, Breach>
    requires ready { Ready t.now.syntax s.now st heads.now names.old slots.now at next Unh f marks.now }
    requires phase_value { st.phase ≡ Idle }
    ensures { StepIs (decided_from t.now.syntax.version (state_in t.now.syntax.service.release s.now st heads.now names.old) (asked_at t.now.syntax.service s.now at) at) result t.now.syntax.service.release s.now heads.now names.new slots.now next }
{
    let segment = Segment {
        octets: s,
        at,
        syntax: t.syntax,
        marks,
    };
    let v = t.syntax.service;
    if !unh_formed(&segment) {
        return stopped(8, at);
    }
    let x = segment.field(1, 0);
    let z = bare(x, v.release);
    match offer(v.release, names, slots, st.count as usize, z) {
        None => stopped(9, at),
        Some(i) => {
            let m = fresh_message(subset_in(s, at, t, marks));
            Ok(after_unh(st, i, stretch_in(marks, 1), m))
        }
    }
}

// UNZ between messages: 7 without one, 8, UNB's 0020, the messages.
fn on_unz(
    s: &[u8],
    at: usize,
    next: usize,
    y: Syntax,
    st: State,
    f: Shape,
    marks: &[usize],
    heads: &[usize; 36],
    names: &[u64],
    slots: &[u16],
) -> Result<State, Breach>
    requires ready { Ready y s.now st heads.now names.now slots.now at next Unz f marks.now }
    requires phase_value { st.phase ≡ Idle }
    ensures { StepIs (decided_from y.version (state_in y.service.release s.now st heads.now names.now) (asked_at y.service s.now at) at) result y.service.release s.now heads.now names.now slots.now next }
{
    let segment = Segment {
        octets: s,
        at,
        syntax: y,
        marks,
    };
    if st.count == 0 {
        return stopped(7, at);
    }
    if !end_formed(&segment) {
        return stopped(8, at);
    }
    let u = st.unb;
    if !is_repeated(&segment, u) {
        return stopped(9, at);
    }
    if number_in(&segment, 1) != u64::from(st.count) {
        return stopped(10, at);
    }
    let m = st.message;
    Ok(after_other(st, Phase::Done, st.count, m))
}

// 0588, where the edition has one: each pair of the message has as many segments as it says.
fn pairs_counted(v: Version, p: Pair) -> bool
    requires { (p.base < 65536) × (p.own < 65536) }
    ensures { result ≡ pairs_counted v p }
{
    if is_earlier(v) {
        return true;
    }
    pairs_right(p)
}

// UNT's numbers: 0074, 0588 and CNT.
fn counts_right(g: &Segment, m: Message) -> bool
    requires at_value { in_range (digits 1 6) (text_at g.now.syntax.service g.now.octets.now g.now.at 1 0) ≡ true }
    requires segments_bound { (m.segments < 65535) × (m.pair.base < 65536) × (m.pair.own < 65536) }
    ensures { result ≡ (eqb (number_at (asked_at g.now.syntax.service g.now.octets.now g.now.at) 1) (m.segments + 1) && (pairs_counted g.now.syntax.version m.pair && total_right m.sums)) }
{
    let p = m.pair;
    let u = m.sums;
    number_in(g, 1) == u64::from(m.segments + 1)
        && pairs_counted(g.syntax.version, p)
        && totals_right(u)
}

// UNT's references: 0062, and each header with its trailer.
fn refs_right(g: &Segment, st: State, heads: &[usize; 36]) -> bool
    requires headers_bound { st.message.headers ≤ 9 }
    ensures { result ≡ (repeated_ref g.now.syntax.service g.now.octets.now g.now.at st.unh
        && all_named (head_flags heads.now st.message.headers)) }
{
    let w = st.unh;
    let m = st.message;
    if !is_repeated(g, w) {
        return false;
    }
    all_named(heads, m.headers as usize)
}

// UNT of the open message: 7, 8, 9, 10; its 0062 joins the references.
fn on_unt(
    s: &[u8],
    at: usize,
    next: usize,
    y: Syntax,
    st: State,
    f: Shape,
    marks: &[usize],
    heads: &[usize; 36],
    names: &[u64],
    slots: &mut [u16],
) -> Result<State, Breach>
    requires ready { Ready y s.now st heads.now names.now slots.old at next Unt f marks.now }
    requires phase_value { st.phase ≡ Busy }
    ensures { StepIs (decided_from y.version (state_in y.service.release s.now st heads.now names.now) (asked_at y.service s.now at) at) result y.service.release s.now heads.now names.now slots.new next }
{
    let segment = Segment {
        octets: s,
        at,
        syntax: y,
        marks,
    };
    let m = st.message;
    if !may_come(Kind::Unt, m) {
        return stopped(7, at);
    }
    if !end_formed(&segment) {
        return stopped(8, at);
    }
    if !refs_right(&segment, st, heads) {
        return stopped(9, at);
    }
    if !counts_right(&segment, m) {
        return stopped(10, at);
    }
    note(names, slots, st.count as usize, st.slot);
    Ok(after_other(st, Phase::Idle, st.count + 1, m))
}

// What a segment does in the open message, by its kind, once it may come and is well formed.
fn step_in(
    s: &[u8],
    at: usize,
    y: Syntax,
    m: Message,
    k: Kind,
    f: Shape,
    marks: &[usize],
    heads: &mut [usize; 36],
    i: usize,
) -> Result<Message, u8>
    requires k_value { k ≡ tag_kind (slice at (at + 3) s.now) }
    requires fields { looked k ≡ true → Fields y.service s.now at f.size f.repeats marks.now }
    requires roomy { Roomy m heads.old }
    requires segments_bound { (m.segments < 65535) × (length heads.old ≡ 36) }
    requires m_value { (may_come k m ≡ true) × (formed y.version (asked_at y.service s.now at) ≡ true) }
    requires sought { k ≡ Ust → Sought y.service s.now at m heads.old i }
    ensures by_index { (u w : ℕ) → MovedIs (step_m k (summary_in y.service.release s.now m u w heads.old) (asked_at y.service s.now at)) result y.service.release s.now u w heads.new }
    ensures heads_len { length heads.new ≡ 36 }
{
    let g = m.group;
    match k {
        Kind::Ush => on_ush(
            &Segment {
                octets: s,
                at,
                syntax: y,
                marks,
            },
            m,
            heads,
        ),
        Kind::Usa => in_header(m, usa_group(g), heads),
        Kind::Usc => in_header(m, usc_group(g), heads),
        Kind::Usr => on_usr(m, heads),
        Kind::Ust => on_ust(
            &Segment {
                octets: s,
                at,
                syntax: y,
                marks,
            },
            m,
            heads,
            i,
        ),
        Kind::Usb => on_usb(m),
        Kind::Usx => Ok(grown_to(m, Group::Ack(true, false))),
        Kind::Usy => on_usy(
            &Segment {
                octets: s,
                at,
                syntax: y,
                marks,
            },
            m,
            heads,
        ),
        Kind::Qty => on_qty(
            &Segment {
                octets: s,
                at,
                syntax: y,
                marks,
            },
            m,
            f,
        ),
        Kind::Cnt => on_cnt(
            &Segment {
                octets: s,
                at,
                syntax: y,
                marks,
            },
            m,
        ),
        Kind::Other => on_other(m),
        Kind::Unb => Err(7),
        Kind::Unh => Err(7),
        Kind::Unt => Err(7),
        Kind::Unz => Err(7),
        Kind::Reserved => Err(7),
    }
}

// A segment in the open message, but for UNT: 7, 8, then what it does.
fn on_busy(
    s: &[u8],
    at: usize,
    next: usize,
    t: &Classes,
    st: State,
    k: Kind,
    f: Shape,
    marks: &[usize],
    heads: &mut [usize; 36],
    names: &[u64],
    slots: &[u16],
    i: usize,
) -> Result<State, Breach>
    requires ready { Ready t.now.syntax s.now st heads.old names.now slots.now at next k f marks.now }
    requires phase_value { (st.phase ≡ Busy) × (at_busy false false false true false k ≡ false) }
    requires sought { k ≡ Ust → Sought t.now.syntax.service s.now at st.message heads.old i }
    ensures { StepIs (decided_from t.now.syntax.version (state_in t.now.syntax.service.release s.now st heads.old names.now) (asked_at t.now.syntax.service s.now at) at) result t.now.syntax.service.release s.now heads.new names.now slots.now next }
{
    let m = st.message;
    let a = m.autack;
    if !may_come(k, m) {
        return stopped(7, at);
    }
    if !formed_in(s, at, t, marks, f, k, a) {
        return stopped(8, at);
    }
    match step_in(s, at, t.syntax, m, k, f, marks, heads, i) {
        Err(number) => stopped(number, at),
        Ok(x) => Ok(after_other(st, Phase::Busy, st.count, x)),
    }
}

// A segment between messages: UNH or UNZ.
fn on_idle(
    s: &[u8],
    at: usize,
    next: usize,
    t: &Classes,
    st: State,
    k: Kind,
    f: Shape,
    marks: &[usize],
    heads: &[usize; 36],
    names: &mut [u64],
    slots: &[u16],
) -> Result<State, Breach>
    requires ready { Ready t.now.syntax s.now st heads.now names.old slots.now at next k f marks.now }
    requires phase_value { st.phase ≡ Idle }
    ensures { StepIs (decided_from t.now.syntax.version (state_in t.now.syntax.service.release s.now st heads.now names.old) (asked_at t.now.syntax.service s.now at) at) result t.now.syntax.service.release s.now heads.now names.new slots.now next }
{
    match k {
        Kind::Unh => on_unh(s, at, next, t, st, f, marks, heads, names, slots),
        Kind::Unz => on_unz(s, at, next, t.syntax, st, f, marks, heads, names, slots),
        _ => stopped(7, at),
    }
}

// A segment in its place: 7 to 12, and the state after it.
pub fn turn(
    s: &[u8],
    at: usize,
    next: usize,
    t: &Classes,
    st: State,
    k: Kind,
    f: Shape,
    marks: &[usize],
    heads: &mut [usize; 36],
    names: &mut [u64],
    slots: &mut [u16],
    i: usize,
) -> Result<State, Breach>
    requires ready { Ready t.now.syntax s.now st heads.old names.old slots.old at next k f marks.now }
    requires count_value { st.phase ≡ Start → st.count ≡ 0 }
    requires sought { st.phase ≡ Busy → k ≡ Ust → Sought t.now.syntax.service s.now at st.message heads.old i }
    ensures { StepIs (decided_from t.now.syntax.version (state_in t.now.syntax.service.release s.now st heads.old names.old) (asked_at t.now.syntax.service s.now at) at) result t.now.syntax.service.release s.now heads.new names.new slots.new next }
{
    let p = st.phase;
    match p {
        Phase::Start => match k {
            Kind::Unb => on_unb(s, at, next, t.syntax, st, f, marks, heads, names, slots),
            _ => stopped(7, at),
        },
        Phase::Idle => on_idle(s, at, next, t, st, k, f, marks, heads, names, slots),
        Phase::Busy => match k {
            Kind::Unt => on_unt(s, at, next, t.syntax, st, f, marks, heads, names, slots),
            _ => on_busy(s, at, next, t, st, k, f, marks, heads, names, slots, i),
        },
        Phase::Done => stopped(7, at),
    }
}
