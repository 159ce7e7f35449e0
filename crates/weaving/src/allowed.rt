// What may be sealed, and under which reference: number 16.
ghost use Rattle.std.specs.Prelude.{◌≡◌, List, true, not, ◌&&◌, ℕ, ◌≤◌, T, ltb, length};
ghost use Rattle.syntax.specs.Octets.{within, all_pass};
ghost use Rattle.syntax.specs.Repertoire.{tag_octet};
ghost use Rattle.groups.specs.Calls.{Holds};
ghost use Rattle.weaving.specs.Seals.{ref_right, filter_right, is_new, may_seal, most_octets};

use groups::calls::Opened;
use groups::named::{group_named, headers_of};
use syntax::Version;
use syntax::cutting::tag_octet;
use syntax::opening::is_earlier;
use walk::sections::Layout;

// A to Z and 0 to 9.
fn are_tag_octets(reference: &[u8]) -> bool
    ensures { result ≡ all_pass tag_octet reference.now }
{
    for b in reference {
        if !tag_octet(*b) {
            return false;
        }
    }
    true
}

fn is_reference(reference: &[u8]) -> bool
    ensures value { result ≡ ref_right reference.now }
    ensures reference_len_bound { result ≡ true → length reference.now ≤ 14 }
{
    !reference.is_empty() && reference.len() <= 14 && are_tag_octets(reference)
}

// F: 2, or 7 but in the earlier edition.
fn is_filter(version: Version, filter: u64) -> bool
    ensures { result ≡ filter_right version filter }
{
    filter == 2 || (!is_earlier(version) && filter == 7)
}

// Whether no header of the message has this 0534.
fn is_new(s: &[u8], x: &Opened, reference: &[u8]) -> bool
    requires headers_bound { x.now.layout.headers ≤ 9 }
    ensures { (m : List ℕ) (h : Holds s.now m x.now.classes.syntax x.now.layout x.now.rows) → result ≡ is_new h.o reference.now }
{
    group_named(s, &x.classes, &x.rows, headers_of(x.layout), reference).is_none()
}

// Whether the message can take a further seal.
fn has_room(c: Layout) -> bool
    ensures { result ≡ (not c.autack && ltb c.headers 9) }
{
    !c.autack && c.headers < 9
}

pub fn may_seal(s: &[u8], x: &Opened, reference: &[u8], filter: u64) -> bool
    requires headers_bound { x.now.layout.headers ≤ 9 }
    ensures by_index { (m : List ℕ) (h : Holds s.now m x.now.classes.syntax x.now.layout x.now.rows) → result ≡ may_seal x.now.classes.syntax.version h.o reference.now filter }
    ensures reference_len_bound { result ≡ true → length reference.now ≤ 14 }
{
    is_reference(reference)
        && is_filter(x.classes.syntax.version, filter)
        && has_room(x.layout)
        && is_new(s, x, reference)
}

// How long VALUE may be: 256 octets for F 2, 384 for F 7; in the earlier edition 128.
fn most_octets(version: Version, filter: u64) -> usize
    ensures { result ≡ most_octets version filter }
{
    if is_earlier(version) {
        128
    } else if filter == 2 {
        256
    } else {
        384
    }
}

pub fn is_value_length(version: Version, filter: u64, n: usize) -> bool
    ensures { result ≡ within 1 (most_octets version filter) n }
{
    1 <= n && n <= most_octets(version, filter)
}
