// The class of each octet, as a table that is made once for each interchange.
ghost use Rattle.std.specs.Prelude.{◌≡◌, ◌+◌, ◌≤◌, ◌<◌, set};
ghost use Rattle.syntax.specs.Repertoire.{tag_octet, inside};
ghost use Rattle.syntax.specs.Classes.{data_class, Blank, Base, Table};
ghost use Rattle.syntax.specs.Classes.{Filled};

use crate::cutting::tag_octet;
use crate::{Level, Syntax};

// The classes at which a scan stops. The others are 4 at most, so four octets add up to 16 at most, or to 64 at least where one stops it.
pub const TERMINATOR: u8 = 64;

pub const RELEASE: u8 = 65;

pub const OUTSIDE: u8 = 66;

// The repertoire test, as document 01 prints it: is the octet inside?
pub fn is_inside(l: Level, b: u8) -> bool
    ensures { result ≡ inside l b }
{
    match l {
        // "UNOA: A to Z, 0 to 9, space and . , - ( ) / = ' + : ? ! " % & * ; < >"
        Level::A => match b {
            b' '..=b'"' => true, // space ! "
            b'%'..=b'/' => true, // % & ' ( ) * + , - . /
            b'0'..=b'9' => true,
            b':'..=b'?' => true, // : ; < = > ?
            b'A'..=b'Z' => true,
            _ => false,
        },
        // "UNOB adds a to z."
        Level::B => match b {
            b' '..=b'"' => true, // space ! "
            b'%'..=b'/' => true, // % & ' ( ) * + , - . /
            b'0'..=b'9' => true,
            b':'..=b'?' => true, // : ; < = > ?
            b'A'..=b'Z' | b'a'..=b'z' => true,
            _ => false,
        },
        // "UNOC: 0x20 to 0x7E and 0xA0 to 0xFF."
        Level::C => match b {
            0x20..=0x7E => true, // the printable octets of the lower half
            0xA0..=0xFF => true, // and of the upper one
            _ => false,
        },
        // "UNOD (octets as for UNOC)"
        Level::D => match b {
            0x20..=0x7E => true,
            0xA0..=0xFF => true,
            _ => false,
        },
    }
}

// Its class where it serves for nothing: what a tag may have, other data, outside.
fn data_class(l: Level, b: u8) -> u8
    ensures { result ≡ data_class (tag_octet b) (inside l b) }
{
    if !is_inside(l, b) {
        return OUTSIDE;
    }
    if tag_octet(b) {
        return 0;
    }
    1
}

// The octets from `a` to `e`, both included, are of class `c`.
fn fill(t: &mut [u8; 256], a: u8, e: u8, c: u8)
    requires { a ≤ e }
    ensures { Filled a (e + 1) c t.old t.new }
{
    t[usize::from(a)..=usize::from(e)].fill(c);
}

// The same for every octet at once. In each of these stretches all octets are of one class, whatever the repertoire, so its first one is asked.
fn base(t: &mut [u8; 256], l: Level)
    requires { Blank t.old }
    ensures { Base l t.new }
{
    fill(t, 0, 31, data_class(l, 0));
    fill(t, 32, 34, data_class(l, 32));
    fill(t, 35, 36, data_class(l, 35));
    fill(t, 37, 47, data_class(l, 37));
    fill(t, 48, 57, data_class(l, 48));
    fill(t, 58, 63, data_class(l, 58));
    fill(t, 64, 64, data_class(l, 64));
    fill(t, 65, 90, data_class(l, 65));
    fill(t, 91, 96, data_class(l, 91));
    fill(t, 97, 122, data_class(l, 97));
    fill(t, 123, 126, data_class(l, 123));
    fill(t, 127, 159, data_class(l, 127));
    fill(t, 160, 255, data_class(l, 160));
}

fn put(t: &mut [u8; 256], b: u8, c: u8)
    ensures { t.new ≡ set t.old b c }
{
    t[usize::from(b)] = c;
}

// The class of each octet: data, 0 for what a tag may have and 1 for the others, 2 component, 3 repetition, 4 element, and the three at which a scan stops.
// Later stores win, so what is tested first in `kind_of` is stored last.
pub fn classes(t: &mut [u8; 256], y: Syntax)
    requires { Blank t.old }
    ensures { Table y t.new }
{
    let v = y.service;
    let l = y.level;
    base(t, l);
    put(t, v.repetition, 3);
    put(t, v.component, 2);
    put(t, v.element, 4);
    put(t, v.terminator, TERMINATOR);
    put(t, v.release, RELEASE);
    put(t, 32, 1);
}
