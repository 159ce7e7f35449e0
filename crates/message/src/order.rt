// The order of segments in a message (number 7): which kind may come in the group now open.
ghost use Rattle.std.specs.Prelude.{◌≡◌, ◌&&◌, not, ltb};
ghost use Rattle.message.specs.Summary.{at_heads, at_items, closes, usa_may, usc_may, usr_may, usx_may, usy_may, may_come};

use crate::{Group, Message};
use elements::Kind;
use grammar::{Subset, is_autack, is_gs1};

// Whether a further header, or the USB of a body, may come: in the subset of GS1 each header has a USC.
fn at_heads(a: Option<Subset>, g: Group) -> bool
    ensures { result ≡ at_heads a g }
{
    match g {
        Group::Opened | Group::Certificate(_, _, _) => true,
        Group::Header(_) => !is_gs1(a),
        Group::Body | Group::Ack(_, _) | Group::Trailer(_) => false,
    }
}

fn at_items(g: Group) -> bool
    ensures { result ≡ at_items g }
{
    !matches!(g, Group::Ack(_, _) | Group::Trailer(_))
}

// Whether a trailer or UNT may come.
fn may_close(autack: bool, g: Group) -> bool
    ensures { result ≡ closes autack g }
{
    match g {
        Group::Opened | Group::Header(_) | Group::Certificate(_, _, _) => !autack,
        Group::Ack(_, filled) => filled,
        Group::Body | Group::Trailer(_) => true,
    }
}

fn usa_may(g: Group) -> bool
    ensures { result ≡ usa_may g }
{
    match g {
        Group::Header(n) => n < 3,
        Group::Certificate(_, n, usr) => !usr && n < 3,
        _ => false,
    }
}

fn usc_may(g: Group) -> bool
    ensures { result ≡ usc_may g }
{
    match g {
        Group::Header(_) => true,
        Group::Certificate(n, _, _) => n < 1,
        _ => false,
    }
}

fn usr_may(g: Group) -> bool
    ensures { result ≡ usr_may g }
{
    match g {
        Group::Certificate(_, _, usr) | Group::Trailer(usr) => !usr,
        _ => false,
    }
}

fn usx_may(g: Group) -> bool
    ensures { result ≡ usx_may g }
{
    match g {
        Group::Ack(any, filled) => !any || filled,
        _ => false,
    }
}

fn usy_may(g: Group) -> bool
    ensures { result ≡ usy_may g }
{
    matches!(g, Group::Ack(true, _))
}

fn ush_may(a: Option<Subset>, g: Group, headers: u16) -> bool
    ensures { result ≡ (at_heads a g && ltb headers 9) }
{
    at_heads(a, g) && headers < 9
}

fn usb_may(a: Option<Subset>, g: Group, autack: bool, headers: u16) -> bool
    ensures { result ≡ (at_heads a g && (autack && ltb 0 headers)) }
{
    at_heads(a, g) && autack && 0 < headers
}

fn item_may(g: Group, autack: bool) -> bool
    ensures { result ≡ (at_items g && not autack) }
{
    at_items(g) && !autack
}

// Whether a segment of kind `k` may come next in the message.
pub fn may_come(k: Kind, m: Message) -> bool
    ensures { result ≡ may_come k m }
{
    let g = m.group;
    let subset = m.autack;
    let autack = is_autack(subset);
    match k {
        Kind::Unt | Kind::Ust => may_close(autack, g),
        Kind::Ush => ush_may(subset, g, m.headers),
        Kind::Usa => usa_may(g),
        Kind::Usc => usc_may(g),
        Kind::Usr => usr_may(g),
        Kind::Usb => usb_may(subset, g, autack, m.headers),
        Kind::Usx => usx_may(g),
        Kind::Usy => usy_may(g),
        Kind::Qty | Kind::Cnt | Kind::Other => item_may(g, autack),
        Kind::Unb | Kind::Unh | Kind::Unz | Kind::Reserved => false,
    }
}
