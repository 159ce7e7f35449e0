// The message state by value: what a segment does to it.
ghost use Rattle.std.specs.Prelude.{◌≡◌, true, ◌+◌, ◌≤◌, ◌<◌, eqb};
ghost use Rattle.std.proofs.Math.Option.{none, some};
ghost use Rattle.grammar.specs.Grams as weighed;
ghost use Rattle.grammar.specs.Grams.{signed};
ghost use Rattle.message.specs.Summary.{no_sums, no_pair, usa_group, usc_group, grown, pairs_right, total_right, loaded, same_control, controlled, fresh, usa_may, usc_may};

use crate::{Group, Message, Pair, Sums};
use grammar::Subset;

pub fn no_sums() -> Sums
    ensures { result ≡ no_sums }
{
    Sums {
        loads: 0,
        grams: 0,
        back: 0,
        controlled: false,
        control: 0,
        below: false,
        agree: true,
    }
}

pub fn no_pair() -> Pair
    ensures { result ≡ no_pair }
{
    Pair {
        right: true,
        claim: 0,
        base: 0,
        own: 0,
    }
}

// A message begun by its UNH.
pub fn fresh_message(autack: Option<Subset>) -> Message
    ensures { result ≡ fresh autack }
{
    let u = no_sums();
    let p = no_pair();
    Message {
        group: Group::Opened,
        autack: autack,
        segments: 1,
        headers: 0,
        sums: u,
        pair: p,
    }
}

// The group after a USA that may come.
pub fn usa_group(g: Group) -> Group
    requires { usa_may g ≡ true }
    ensures { result ≡ usa_group g }
{
    match g {
        Group::Header(n) => Group::Header(n + 1),
        Group::Certificate(n, m, usr) => Group::Certificate(n, m + 1, usr),
        Group::Opened => Group::Opened,
        Group::Body => Group::Body,
        Group::Ack(any, filled) => Group::Ack(any, filled),
        Group::Trailer(usr) => Group::Trailer(usr),
    }
}

// The group after a USC that may come.
pub fn usc_group(g: Group) -> Group
    requires { usc_may g ≡ true }
    ensures { result ≡ usc_group g }
{
    match g {
        Group::Header(_) => Group::Certificate(0, 0, false),
        Group::Certificate(n, _, _) => Group::Certificate(n + 1, 0, false),
        Group::Opened => Group::Opened,
        Group::Body => Group::Body,
        Group::Ack(any, filled) => Group::Ack(any, filled),
        Group::Trailer(usr) => Group::Trailer(usr),
    }
}

// One segment more, in the group g.
pub fn grown_to(m: Message, g: Group) -> Message
    requires { m.segments < 65535 }
    ensures { result ≡ grown m g }
{
    Message {
        group: g,
        segments: m.segments + 1,
        ..m
    }
}

// 0588 counts the segments of its header and trailer pair together: each pair so far does.
pub fn pairs_right(p: Pair) -> bool
    requires { (p.base < 65536) × (p.own < 65536) }
    ensures { result ≡ pairs_right p }
{
    if p.right {
        return p.claim == p.base + p.own as u32;
    }
    false
}

// Whether the first is so many more than the second.
fn is_more_by(more: u64, less: u64, by: u64) -> bool
    ensures { result ≡ eqb more (less + by) }
{
    if more < less {
        return false;
    }
    more - less == by
}

// The control totals are the sum of the loads.
pub fn totals_right(u: Sums) -> bool
    ensures { result ≡ total_right u }
{
    if u.agree {
        if u.controlled {
            if u.below {
                return is_more_by(u.back, u.grams, u.control);
            }
            return is_more_by(u.grams, u.back, u.control);
        }
        return true;
    }
    false
}

// A load more; below zero it was tipped back.
pub fn with_load(u: Sums, grams: u64, below: bool) -> Sums
    requires { (u.loads < 65535) × (u.grams + grams < 18446744073709551616) × (u.back + grams < 18446744073709551616) }
    ensures { result ≡ loaded u (some (signed below grams)) }
{
    if below {
        return Sums {
            loads: u.loads + 1,
            back: u.back + grams,
            ..u
        };
    }
    Sums {
        loads: u.loads + 1,
        grams: u.grams + grams,
        ..u
    }
}

// Whether the first control total is so many grams, below zero or not.
fn same_control(u: Sums, grams: u64, below: bool) -> bool
    ensures { result ≡ same_control u grams below }
{
    if grams == u.control {
        if below {
            return u.below;
        }
        return !u.below;
    }
    false
}

// A control total more, below zero or not; 0 is not.
pub fn with_control(u: Sums, grams: u64, below: bool) -> Sums
    requires { weighed.below (signed below grams) ≡ below }
    ensures { result ≡ controlled u (some (signed below grams)) }
{
    if u.controlled {
        let same = same_control(u, grams, below);
        return Sums {
            controlled: true,
            agree: u.agree && same,
            ..u
        };
    }
    Sums {
        controlled: true,
        control: grams,
        below,
        agree: true,
        ..u
    }
}
