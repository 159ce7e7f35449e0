// The loads among segments that stand one behind the other, added in order.
ghost use Rattle.std.specs.Prelude.{◌≡◌, List, ◌≤◌, ◌<◌, T, length};
ghost use Rattle.syntax.specs.Service.{fit};
ghost use Rattle.syntax.specs.Tree.{Segment};
ghost use Rattle.elements.specs.Octets.{asked_at};
ghost use Rattle.groups.specs.Stand.{Row};
ghost use Rattle.kilograms.specs.OldSum.{Old};
ghost use Rattle.kilograms.specs.Running.{running_as, Held, Runs, Weighs};
ghost use Rattle.returns.specs.Reading.{three_parted, weighed_by, read_in, read_as, added_by, added_from, Starts};

use elements::amounts::{amount_in, unit_in};
use kilograms::{Tally, add, load_of};
use syntax::classes::Classes;
use syntax::content::{content_is, part};
use syntax::cutting::stop;
use syntax::reading::{component_part, count_components, count_elements};

// The load of this amount. One below zero, or not written right, is no load from 0 to 100,000 kilograms.
fn weighed(a: Option<(u64, bool)>) -> Option<u32>
    ensures { result ≡ weighed_by a }
{
    match a {
        Some((w, below)) => {
            if below {
                return None;
            }
            load_of(w)
        }
        None => None,
    }
}

// Whether the segment at `at` is a QTY whose one element has three components.
fn is_three_part(s: &[u8], at: usize, t: &Classes) -> bool
    requires at_in_bounds { (at < length s.now) × (length s.now ≤ 65535) }
    ensures { result ≡ three_parted (asked_at t.now.syntax.service s.now at) }
{
    if !content_is(part(s, at, at + 3), 32, b"QTY") {
        return false;
    }
    if count_elements(s, at, t) != 1 {
        return false;
    }
    count_components(s, at, t, 1) == 3
}

// The load that the segment at `at` is, if it is one; inside, None is a load other than whole kilograms from 0 to 100,000.
fn load_at(s: &[u8], at: usize, t: &Classes) -> Option<Option<u32>>
    requires at_in_bounds { (at < length s.now) × (length s.now ≤ 65535) }
    ensures { result ≡ read_as (read_in (asked_at t.now.syntax.service s.now at)) }
{
    if !is_three_part(s, at, t) {
        return None;
    }
    let v = t.syntax.service;
    let unit = unit_in(component_part(s, at, t, 1, 2), v.release, 9, 6)?;
    Some(weighed(amount_in(component_part(s, at, t, 1, 1), v.release, unit)))
}

// One segment more.
fn after_segment(k: Result<Tally, u8>, s: &[u8], at: usize, t: &Classes) -> Result<Tally, u8>
    requires at_in_bounds { (at < length s.now) × (length s.now ≤ 65535) × Runs k }
    ensures { (o : Old) → Held o → k ≡ running_as o → result ≡ running_as (added_by o (read_in (asked_at t.now.syntax.service s.now at))) }
{
    match load_at(s, at, t) {
        Some(load) => add(k, load),
        None => k,
    }
}

// The loads from `from` on, before `to`, added in order.
pub fn add_between(
    s: &[u8],
    t: &Classes,
    from: usize,
    to: usize,
    before: Result<Tally, u8>,
) -> Result<Tally, u8>
    requires t { T (fit t.now.syntax.service) }
    requires s_len_bound { (length s.now ≤ 65535) × Starts before }
    ensures value { (gs : List Segment) (o : Old) → Row t.now.syntax.service s.now from gs to → Held o → before ≡ running_as o → result ≡ running_as (added_from o gs) }
    ensures runs { Runs result }
{
    let mut k = before;
    let mut at = from;
    while at < to {
        match stop(s, at, t, 5) {
            Some(e) => {
                k = after_segment(k, s, at, t);
                at = e + 1;
            }
            None => {
                return k;
            }
        }
    }
    k
}
