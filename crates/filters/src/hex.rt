// Code 2: upper-case hex, high half first.
ghost use Rattle.std.specs.Prelude.{◌≡◌, [], ◌∷◌, ◌+◌, ◌≤◌, ◌<◌, length, drop};
ghost use Rattle.syntax.specs.Content.{content};
ghost use Rattle.writing.specs.Laid.{Laid};
ghost use Rattle.filters.specs.Hex.{half_in, hex_digit, hex_text, hex_pairs, hex_value};
ghost use Rattle.filters.specs.Decoding.{Decodes};

use crate::pieces::{Piece, next_piece};
use syntax::content::{content_length, next_octet};
use writing::{put, store};

// The half octet that a character stands for; none where it is no digit.
fn half_of(c: u8) -> Option<u8>
    ensures { result ≡ half_in c }
{
    match c {
        b'0'..=b'9' => Some(c - b'0'),
        b'A'..=b'F' => Some(c - b'A' + 10),
        _ => None,
    }
}

// Two characters an octet, from `from` on; the octets are laid from `laid` on, as far as there is room. It answers how many octets the text stands for
// with those before `laid`, or that it stands for none.
fn hex_from(out: &mut [u8], x: &[u8], from: usize, laid: usize, release: u8) -> Option<usize>
    requires { laid ≤ from }
    ensures { Decodes (hex_pairs (content release (drop from x.now))) out.old laid result out.new }
{
    let mut i = from;
    let mut n = laid;
    loop {
        match next_piece::<2>(x, i, release) {
            Piece::Over => {
                return Some(n);
            }
            Piece::Short => {
                return None;
            }
            Piece::Of(two, j) => {
                let [c, d] = two;
                let a = half_of(c)?;
                let b = half_of(d)?;
                store(&mut *out, n, a * 16 + b);
                n += 1;
                i = j;
            }
        }
    }
}

// The same where one zero stands before the content.
fn hex_behind_zero(out: &mut [u8], x: &[u8], release: u8) -> Option<usize>
    ensures { Decodes (hex_pairs (48 ∷ content release x.now)) out.old 0 result out.new }
{
    let (c, j) = next_octet(x, 0, release)?;
    let a = half_of(c)?;
    store(&mut *out, 0, a);
    hex_from(&mut *out, x, j, 1, release)
}

// Lays the octets that the content of `x` stands for at the front of `out`, as far as there is room, and answers how many they are; none where it stands
// for none.
pub fn hex_into(out: &mut [u8], x: &[u8], release: u8) -> Option<usize>
    ensures { Decodes (hex_value (content release x.now)) out.old 0 result out.new }
{
    let n = content_length(x, release);
    if n % 2 == 0 {
        hex_from(&mut *out, x, 0, 0, release)
    } else {
        hex_behind_zero(&mut *out, x, release)
    }
}

fn hex_digit(n: u8) -> u8
    requires { n < 16 }
    ensures { result ≡ hex_digit n }
{
    if n < 10 { b'0' + n } else { b'A' + (n - 10) }
}

// The two digits of one octet.
fn put_octet(out: &mut [u8], at: usize, b: u8) -> usize
    requires { at + 2 < 18446744073709551616 }
    ensures { Laid out.old at (hex_text (b ∷ [])) result out.new }
{
    put(&mut *out, at, &[hex_digit(b / 16), hex_digit(b % 16)])
}

// The text of `v`.
pub fn hex_text(out: &mut [u8], at: usize, v: &[u8]) -> usize
    requires { at + length (hex_text v.now) < 18446744073709551616 }
    ensures { Laid out.old at (hex_text v.now) result out.new }
{
    let mut p = at;
    for b in v {
        p = put_octet(&mut *out, p, *b);
    }
    p
}
