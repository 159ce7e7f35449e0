// Code 7: base 64 of RFC 1521.
ghost use Rattle.std.specs.Prelude.{◌≡◌, [], ◌∷◌, ◌+◌, ◌<◌, length};
ghost use Rattle.syntax.specs.Content.{content};
ghost use Rattle.writing.specs.Laid.{Laid};
ghost use Rattle.filters.specs.Six.{bits_of, bits_in, padded, first_of, second_of, third_of, six_value, six_digit, six_text};
ghost use Rattle.filters.specs.Decoding.{Decodes};

use crate::pieces::{Piece, is_over, next_piece};
use writing::put;

// It fills up the last four characters.
const PAD: u8 = b'=';

// The six bits that a character stands for; none where it is no digit.
fn bits_of(c: u8) -> Option<u8>
    ensures { result ≡ bits_in c }
{
    match c {
        b'A'..=b'Z' => Some(c - b'A'),
        b'a'..=b'z' => Some(c - b'a' + 26),
        b'0'..=b'9' => Some(c - b'0' + 52),
        b'+' => Some(62),
        b'/' => Some(63),
        _ => None,
    }
}

fn first_of(p: u8, q: u8) -> u8
    requires { (p < 64) × (q < 64) }
    ensures { result ≡ first_of p q }
{
    p * 4 + q / 16
}

fn second_of(q: u8, r: u8) -> u8
    requires { r < 64 }
    ensures { result ≡ second_of q r }
{
    q % 16 * 16 + r / 4
}

fn third_of(r: u8, s: u8) -> u8
    requires { s < 64 }
    ensures { result ≡ third_of r s }
{
    r % 4 * 64 + s
}

// Three characters before a pad: two octets, or one where the third is a pad too. Spare bits are zero.
fn last_group(out: &mut [u8], n: usize, a: u8, b: u8, c: u8) -> Option<usize>
    requires { n + 2 < 18446744073709551616 }
    ensures { Decodes (padded (bits_of a) (bits_of b) (bits_of c)) out.old n result out.new }
{
    let p = bits_of(a)?;
    let q = bits_of(b)?;
    if c == PAD {
        if q % 16 == 0 {
            return Some(put(&mut *out, n, &[first_of(p, q)]));
        }
        return None;
    }
    let r = bits_of(c)?;
    if r % 4 == 0 {
        return Some(put(&mut *out, n, &[first_of(p, q), second_of(q, r)]));
    }
    None
}

// Lays the octets that the content of `x` stands for at the front of `out`, as far as there is room, and answers how many they are; none where it stands
// for none.
pub fn six_into(out: &mut [u8], x: &[u8], release: u8) -> Option<usize>
    ensures { Decodes (six_value (content release x.now)) out.old 0 result out.new }
{
    let mut i: usize = 0;
    let mut n: usize = 0;
    loop {
        match next_piece::<4>(x, i, release) {
            Piece::Over => {
                return Some(n);
            }
            Piece::Short => {
                return None;
            }
            Piece::Of(four, j) => {
                let [a, b, c, d] = four;
                if d == PAD {
                    // Padding stands only at the end.
                    let last = is_over(x, j, release);
                    return if last {
                        last_group(&mut *out, n, a, b, c)
                    } else {
                        None
                    };
                }
                let p = bits_of(a)?;
                let q = bits_of(b)?;
                let r = bits_of(c)?;
                let s = bits_of(d)?;
                n = put(
                    &mut *out,
                    n,
                    &[first_of(p, q), second_of(q, r), third_of(r, s)],
                );
                i = j;
            }
        }
    }
}

fn six_digit(n: u8) -> u8
    requires { n < 64 }
    ensures { result ≡ six_digit n }
{
    match n {
        0..=25 => b'A' + n,
        26..=51 => b'a' + (n - 26),
        52..=61 => b'0' + (n - 52),
        62 => b'+',
        _ => b'/',
    }
}

fn put_one(out: &mut [u8], at: usize, x: u8) -> usize
    requires { at + 4 < 18446744073709551616 }
    ensures { Laid out.old at (six_text (x ∷ [])) result out.new }
{
    let four = [six_digit(x / 4), six_digit(x % 4 * 16), PAD, PAD];
    put(&mut *out, at, &four)
}

fn put_two(out: &mut [u8], at: usize, x: u8, y: u8) -> usize
    requires { at + 4 < 18446744073709551616 }
    ensures { Laid out.old at (six_text (x ∷ y ∷ [])) result out.new }
{
    let four = [
        six_digit(x / 4),
        six_digit(x % 4 * 16 + y / 16),
        six_digit(y % 16 * 4),
        PAD,
    ];
    put(&mut *out, at, &four)
}

fn put_three(out: &mut [u8], at: usize, x: u8, y: u8, z: u8) -> usize
    requires { at + 4 < 18446744073709551616 }
    ensures { Laid out.old at (six_text (x ∷ y ∷ z ∷ [])) result out.new }
{
    let four = [
        six_digit(x / 4),
        six_digit(x % 4 * 16 + y / 16),
        six_digit(y % 16 * 4 + z / 64),
        six_digit(z % 64),
    ];
    put(&mut *out, at, &four)
}

// The text of `v`.
pub fn six_text(out: &mut [u8], at: usize, v: &[u8]) -> usize
    requires { at + length (six_text v.now) < 18446744073709551616 }
    ensures { Laid out.old at (six_text v.now) result out.new }
{
    let mut p = at;
    let mut rest = v;
    while let [x, y, z, tail @ ..] = rest {
        p = put_three(&mut *out, p, *x, *y, *z);
        rest = tail;
    }
    match rest {
        [x, y] => put_two(&mut *out, p, *x, *y),
        [x] => put_one(&mut *out, p, *x),
        _ => p,
    }
}
