// What a segment does in an open message, once it may come (7) and is well formed (8): numbers 9, 11 and 12, and the message after it.
ghost use Rattle.std.specs.Prelude.{◌≡◌, true, List, ℕ, ◌≤◌, ◌<◌, length};
ghost use Rattle.syntax.specs.Content.{compared, value_from};
ghost use Rattle.grammar.specs.Elements.{in_range, digits};
ghost use Rattle.grammar.specs.Rules.{claimed, scope_code};
ghost use Rattle.elements.specs.Octets.{text_at, asked_at};
ghost use Rattle.elements.specs.Fields.{Marked};
ghost use Rattle.message.specs.Heads.{head_refs, head_sizes, head_flags};
ghost use Rattle.message.specs.Summary.{free_at, more_in_last, grown_by, usr_next};
ghost use Rattle.message.specs.Steps.{to_m, ush_m, ust_m, usy_m, headed, trailed, own_grown, summary_in, Roomy, Sought, MovedIs};

use crate::heads::{grow_last, header_named, name_header, push_header};
use crate::kept::{grown_to, pairs_right};
use crate::{Group, Message, Pair};
use elements::fields::{field_end, field_start};
use elements::formed::digits;
use elements::segment::Segment;
use grammar::Subset;
use syntax::content::{content_is, digits_value};

// 0541 is 1 or 2; in AUTACK it is F01, or 3 in the subset of GS1.
fn scope_right(g: &Segment, autack: Option<Subset>) -> bool
    ensures { result ≡ scope_code autack (text_at g.now.syntax.service g.now.octets.now g.now.at 3 0) }
{
    let v = g.syntax.service;
    let x = g.field(3, 0);
    match autack {
        Some(Subset::F01) => content_is(x, v.release, b"F01"),
        Some(Subset::Gs1) => content_is(x, v.release, b"3"),
        None => content_is(x, v.release, b"1") || content_is(x, v.release, b"2"),
    }
}

// The message with a header more.
fn with_header(m: Message) -> Message
    requires { (m.headers < 9) × (m.segments < 65535) }
    ensures { result ≡ headed m }
{
    Message {
        group: Group::Header(0),
        segments: m.segments + 1,
        headers: m.headers + 1,
        ..m
    }
}

// A USH: 0534 once in a message, then its scope; a header more.
pub fn on_ush(g: &Segment, m: Message, heads: &mut [usize; 36]) -> Result<Message, u8>
    requires roomy { Roomy m heads.old }
    requires headers_bound { (m.headers < 9) × (m.segments < 65535) × (length heads.old ≡ 36) }
    ensures by_index { (u w : ℕ) → MovedIs (ush_m (summary_in g.now.syntax.service.release g.now.octets.now m u w heads.old) (asked_at g.now.syntax.service g.now.octets.now g.now.at)) result g.now.syntax.service.release g.now.octets.now u w heads.new }
    ensures heads_len { length heads.new ≡ 36 }
{
    let v = g.syntax.service;
    let n = m.headers as usize;
    let x = g.field(2, 0);
    if header_named(g.octets, v.release, heads, n, x) {
        return Err(9);
    }
    let autack = m.autack;
    if !scope_right(g, autack) {
        return Err(11);
    }
    let b = field_start(g.marks, 2, 0);
    let e = field_end(g.marks, 2, 0);
    push_header(heads, n, b, e);
    Ok(with_header(m))
}

// A USA, a USC or a USR of the header group now open: a segment more in it.
pub fn in_header(m: Message, g: Group, heads: &mut [usize; 36]) -> Result<Message, u8>
    requires roomy { Roomy m heads.old }
    requires segments_bound { (m.segments < 65535) × (length heads.old ≡ 36) }
    ensures by_index { (ρ : ℕ) (s : List ℕ) (u w : ℕ) → MovedIs (to_m (grown_by (summary_in ρ s m u w heads.old) g (more_in_last (head_sizes heads.old m.headers)))) result ρ s u w heads.new }
    ensures heads_len { length heads.new ≡ 36 }
{
    let n = m.headers as usize;
    grow_last(heads, n);
    Ok(grown_to(m, g))
}

// A USR of the trailer group now open: a segment more in it.
fn in_trailer(m: Message) -> Message
    requires { (m.segments < 65535) × (m.pair.own < 65535) }
    ensures { result ≡ own_grown m }
{
    let p = m.pair;
    Message {
        group: Group::Trailer(true),
        segments: m.segments + 1,
        pair: Pair {
            own: p.own + 1,
            ..p
        },
        ..m
    }
}

// A USR: the certificate's, or the trailer's; elsewhere it may not come.
pub fn on_usr(m: Message, heads: &mut [usize; 36]) -> Result<Message, u8>
    requires roomy { Roomy m heads.old }
    requires segments_bound { (m.segments < 65535) × (length heads.old ≡ 36) }
    ensures by_index { (ρ : ℕ) (s : List ℕ) (u w : ℕ) → MovedIs (to_m (usr_next (summary_in ρ s m u w heads.old) m.group)) result ρ s u w heads.new }
    ensures heads_len { length heads.new ≡ 36 }
{
    let g = m.group;
    match g {
        Group::Certificate(n, k, _) => in_header(m, Group::Certificate(n, k, true), heads),
        Group::Trailer(_) => Ok(in_trailer(m)),
        Group::Opened => Ok(m),
        Group::Header(_) => Ok(m),
        Group::Body => Ok(m),
        Group::Ack(_, _) => Ok(m),
    }
}

// The number that an element's digits give.
pub fn number_in(g: &Segment, p: usize) -> u64
    requires le_p { (1 ≤ p) × (p ≤ 5) × (in_range (digits 1 6) (text_at g.now.syntax.service g.now.octets.now g.now.at p 0) ≡ true) }
    ensures { (result ≡ value_from 0 (text_at g.now.syntax.service g.now.octets.now g.now.at p 0)) × (result < 1000000) }
{
    let v = g.syntax.service;
    match digits_value(g.field(p, 0), v.release) {
        Some(n) => n,
        None => 0,
    }
}

// What 0588 says, which has 1 to 6 digits; 0 where it has not.
fn claimed_in(g: &Segment) -> u64
    ensures { (result ≡ claimed (text_at g.now.syntax.service g.now.octets.now g.now.at 2 0)) × (result < 1000000) }
{
    if digits(g, 2, 0, 1, 6) {
        return number_in(g, 2);
    }
    0
}

// The message with a trailer more, which claims this and names a header of `base` segments.
fn with_trailer(m: Message, claim: u32, base: u32) -> Message
    requires { (m.segments < 65535) × (m.pair.base < 65536) × (m.pair.own < 65536) }
    ensures { result ≡ trailed m claim base }
{
    let p = m.pair;
    let right = pairs_right(p);
    Message {
        group: Group::Trailer(false),
        segments: m.segments + 1,
        pair: Pair {
            right: right,
            claim: claim,
            base: base,
            own: 1,
        },
        ..m
    }
}

// A UST: it names a header not yet named, `i` of them (as many as there are: none), and counts the pair's segments.
pub fn on_ust(g: &Segment, m: Message, heads: &mut [usize; 36], i: usize) -> Result<Message, u8>
    requires roomy { Roomy m heads.old }
    requires segments_bound { (m.segments < 65535) × (length heads.old ≡ 36) }
    requires sought { Sought g.now.syntax.service g.now.octets.now g.now.at m heads.old i }
    ensures by_index { (u w : ℕ) → MovedIs (ust_m (summary_in g.now.syntax.service.release g.now.octets.now m u w heads.old) (asked_at g.now.syntax.service g.now.octets.now g.now.at) (free_at (compared (text_at g.now.syntax.service g.now.octets.now g.now.at 1 0)) (head_refs g.now.syntax.service.release g.now.octets.now heads.old m.headers) (head_flags heads.old m.headers))) result g.now.syntax.service.release g.now.octets.now u w heads.new }
    ensures heads_len { length heads.new ≡ 36 }
{
    let n = m.headers as usize;
    if n <= i {
        return Err(9);
    }
    let base = heads[4 * i + 2];
    name_header(heads, n, i);
    let claim = claimed_in(g);
    Ok(with_trailer(m, claim as u32, base as u32))
}

// A USY: it names a USH of its message.
pub fn on_usy(g: &Segment, m: Message, heads: &[usize; 36]) -> Result<Message, u8>
    requires roomy { Roomy m heads.now }
    requires segments_bound { m.segments < 65535 }
    ensures { (u w : ℕ) → MovedIs (usy_m (summary_in g.now.syntax.service.release g.now.octets.now m u w heads.now) (asked_at g.now.syntax.service g.now.octets.now g.now.at)) result g.now.syntax.service.release g.now.octets.now u w heads.now }
{
    let v = g.syntax.service;
    let n = m.headers as usize;
    let x = g.field(1, 0);
    if header_named(g.octets, v.release, heads, n, x) {
        return Ok(grown_to(m, Group::Ack(true, true)));
    }
    Err(9)
}
