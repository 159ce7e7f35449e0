// The lines of the report: a refusal, the interchange, a message; in `seals` those of its seals.
#![tactic(auto)]

pub mod seals;
pub mod words;

ghost use Rattle.std.specs.Prelude.{◌+◌, ◌≤◌, ◌<◌, length};
ghost use Rattle.groups.specs.Groups.{name_at};
ghost use Rattle.writing.specs.Laid.{Laid};
ghost use Rattle.lines.specs.Words.{refusal_line, accepted_line, message_words, sign_words, loads_words, line_words};
ghost use Rattle.lines.specs.Seals.{Near};

use crate::words::put_name;
use syntax::Refusal;
use syntax::classes::Classes;
use walk::sections::Layout;
use writing::{put, put_number};

// A message whose lines are laid: the octets of its interchange, their classes, where its parts stand, and where its groups start.
#[derive(Clone, Copy)]
pub struct Listed<'a> {
    pub s: &'a [u8],
    pub t: &'a Classes,
    pub rows: &'a [usize; 18],
    pub layout: Layout,
    pub ghost near: { Near layout rows.now },
}

// "refused 10 at 113 segment 6"
pub fn refusal_line(out: &mut [u8], f: Refusal) -> usize
    ensures { Laid out.old 0 (refusal_line f) result out.new }
{
    let a = put(&mut *out, 0, b"refused ");
    let b = put_number(&mut *out, a, f.number as u64);
    let c = put(&mut *out, b, b" at ");
    let d = put_number(&mut *out, c, f.place as u64);
    let e = put(&mut *out, d, b" segment ");
    let g = put_number(&mut *out, e, f.segment as u64);
    put(&mut *out, g, b"\n")
}

// "accepted R1": the reference of the interchange whose UNB stands at `from`.
pub fn accepted_line(out: &mut [u8], s: &[u8], from: usize, t: &Classes) -> usize
    requires s_len_bound { length s.now ≤ 65535 }
    ensures laid { Laid out.old 0 (accepted_line (name_at t.now.syntax.service s.now from 5)) result out.new }
    ensures upper_bound { result ≤ 65600 }
{
    let a = put(&mut *out, 0, b"accepted ");
    let b = put_name(&mut *out, a, s, from, t, 5);
    put(&mut *out, b, b"\n")
}

// "message M1 DESADV": the message whose UNH stands at `unh`.
fn put_message(out: &mut [u8], at: usize, s: &[u8], t: &Classes, unh: usize) -> usize
    requires s_len_bound { (length s.now ≤ 65535) × (at + 131100 < 18446744073709551616) }
    ensures laid { Laid out.old at (message_words (name_at t.now.syntax.service s.now unh 1) (name_at t.now.syntax.service s.now unh 2)) result out.new }
    ensures upper_bound { result ≤ at + 131100 }
{
    let a = put(&mut *out, at, b"message ");
    let b = put_name(&mut *out, a, s, unh, t, 1);
    let c = put(&mut *out, b, b" ");
    put_name(&mut *out, c, s, unh, t, 2)
}

// A minus before what is below zero.
fn put_sign(out: &mut [u8], at: usize, below: bool) -> usize
    requires { at + 1 < 18446744073709551616 }
    ensures laid { Laid out.old at (sign_words below) result out.new }
    ensures upper_bound { result ≤ at + 1 }
{
    if below {
        return put(&mut *out, at, b"-");
    }
    at
}

// " loads 2 grams 57340000", and the end of the line.
fn put_loads(out: &mut [u8], at: usize, loads: usize, grams: u64, below: bool) -> usize
    requires { at + 100 < 18446744073709551616 }
    ensures laid { Laid out.old at (loads_words loads below grams) result out.new }
    ensures upper_bound { result ≤ at + 100 }
{
    let a = put(&mut *out, at, b" loads ");
    let b = put_number(&mut *out, a, loads as u64);
    let c = put(&mut *out, b, b" grams ");
    let d = put_sign(&mut *out, c, below);
    let e = put_number(&mut *out, d, grams);
    put(&mut *out, e, b"\n")
}

pub fn message_line(
    out: &mut [u8],
    at: usize,
    s: &[u8],
    t: &Classes,
    unh: usize,
    loads: usize,
    grams: u64,
    below: bool,
) -> usize
    requires s_len_bound { (length s.now ≤ 65535) × (at + 131200 < 18446744073709551616) }
    ensures laid { Laid out.old at (line_words (name_at t.now.syntax.service s.now unh 1) (name_at t.now.syntax.service s.now unh 2) loads below grams) result out.new }
    ensures upper_bound { result ≤ at + 131200 }
{
    let a = put_message(&mut *out, at, s, t, unh);
    put_loads(&mut *out, a, loads, grams, below)
}
