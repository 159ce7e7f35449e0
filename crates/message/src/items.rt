// The segments of a body: loads, control totals, and the others; and USB.
ghost use Rattle.std.specs.Prelude.{◌≡◌, true, List, ℕ, ◌*◌, ◌≤◌, ◌<◌, Ok};
ghost use Rattle.grammar.specs.Loads.{control_in, control_right};
ghost use Rattle.elements.specs.Kinds.{tag_kind};
ghost use Rattle.elements.specs.declared.Kind.TheVariants.{Qty, Cnt};
ghost use Rattle.elements.specs.Octets.{asked_at};
ghost use Rattle.elements.specs.Fields.{Marked, Fields};
ghost use Rattle.message.specs.Summary.{item_next, usb_next, controlled};
ghost use Rattle.message.specs.Steps.{to_m, qty_m, summary_in, Roomy, MovedIs};
ghost use Rattle.message.specs.Items.{grown_with};

use crate::kept::{no_sums, with_control, with_load};
use crate::{Group, Message, Sums};
use elements::amounts::{amount_in, unit_in};
use elements::fields::Shape;
use elements::segment::Segment;
use syntax::content::content_is;

// One segment more in the group `g`, with these sums.
fn with_sums(m: Message, g: Group, u: Sums) -> Result<Message, u8>
    requires { m.segments < 65535 }
    ensures { result ≡ Ok (grown_with m g u) }
{
    Ok(Message {
        group: g,
        segments: m.segments + 1,
        sums: u,
        ..m
    })
}

// QTY: a load, if its one element has three components and the third is a unit; its amount (12).
pub fn on_qty(g: &Segment, m: Message, f: Shape) -> Result<Message, u8>
    requires fields { Fields g.now.syntax.service g.now.octets.now g.now.at f.size f.repeats g.now.marks.now }
    requires at_value { tag_kind (asked_at g.now.syntax.service g.now.octets.now g.now.at).tag ≡ Qty }
    requires segments_bound { (m.segments < 65535) × (m.sums.loads ≤ m.segments) × (m.sums.grams ≤ m.segments * 1000000000000) × (m.sums.back ≤ m.segments * 1000000000000) }
    ensures { (u w : ℕ) (h : List ℕ) → Roomy m h →
        MovedIs (qty_m (summary_in g.now.syntax.service.release g.now.octets.now m u w h) (asked_at g.now.syntax.service g.now.octets.now g.now.at)) result g.now.syntax.service.release g.now.octets.now u w h }
{
    let v = g.syntax.service;
    let k = m.sums;
    if f.size != 1 {
        return with_sums(m, Group::Body, k);
    }
    if g.parts(1) != 3 {
        return with_sums(m, Group::Body, k);
    }
    match unit_in(g.field(1, 2), v.release, 9, 6) {
        Some(u) => match amount_in(g.field(1, 1), v.release, u) {
            Some((w, below)) => with_sums(m, Group::Body, with_load(k, w, below)),
            None => Err(12),
        },
        None => with_sums(m, Group::Body, k),
    }
}

// CNT: with qualifier 1 a control total, which is well formed (8).
pub fn on_cnt(g: &Segment, m: Message) -> Result<Message, u8>
    requires at_value { (tag_kind (asked_at g.now.syntax.service g.now.octets.now g.now.at).tag ≡ Cnt) × (control_right (asked_at g.now.syntax.service g.now.octets.now g.now.at) ≡ true) }
    requires segments_bound { m.segments < 65535 }
    ensures { (u w : ℕ) (h : List ℕ) → Roomy m h →
        MovedIs (to_m (item_next (summary_in g.now.syntax.service.release g.now.octets.now m u w h) (controlled m.sums (control_in (asked_at g.now.syntax.service g.now.octets.now g.now.at))))) result g.now.syntax.service.release g.now.octets.now u w h }
{
    let v = g.syntax.service;
    let k = m.sums;
    if !content_is(g.field(1, 0), v.release, b"1") {
        return with_sums(m, Group::Body, k);
    }
    match unit_in(g.field(1, 2), v.release, 12, 9) {
        Some(u) => match amount_in(g.field(1, 1), v.release, u) {
            Some((w, below)) => with_sums(m, Group::Body, with_control(k, w, below)),
            None => with_sums(m, Group::Body, k),
        },
        None => with_sums(m, Group::Body, k),
    }
}

// Any other segment of a body.
pub fn on_other(m: Message) -> Result<Message, u8>
    requires { m.segments < 65535 }
    ensures { (ρ : ℕ) (s : List ℕ) (u w : ℕ) (h : List ℕ) → Roomy m h → MovedIs (to_m (item_next (summary_in ρ s m u w h) m.sums)) result ρ s u w h }
{
    let k = m.sums;
    with_sums(m, Group::Body, k)
}

// USB begins the body of AUTACK.
pub fn on_usb(m: Message) -> Result<Message, u8>
    requires { m.segments < 65535 }
    ensures { (ρ : ℕ) (s : List ℕ) (u w : ℕ) (h : List ℕ) → Roomy m h → MovedIs (to_m (usb_next (summary_in ρ s m u w h))) result ρ s u w h }
{
    with_sums(m, Group::Ack(false, false), no_sums())
}
