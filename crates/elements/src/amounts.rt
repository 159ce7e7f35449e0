// Amounts: one leading minus or none, digits, optionally a mark and digits, in whole grams.
ghost use Rattle.std.specs.Prelude.{◌≡◌, false, ◌≤◌, ◌<◌, ◌*◌, drop};
ghost use Rattle.syntax.specs.Content.{content};
ghost use Rattle.grammar.specs.Loads.{shape, mark, tens, weight_right, weight, amount_right, grams};
ghost use Rattle.grammar.specs.Loads as loads;
ghost use Rattle.elements.specs.Amounts.{weight_is, amount_is, unit_is, fraction_of, Unsigned};

use syntax::content::{content_is, next_octet, wide};

// How many digits may stand before and behind the mark.
#[derive(Clone, Copy)]
pub struct Form {
    pub whole: usize,
    pub decimals: usize,
}

// The form that a unit gives, KGM or TNE.
pub fn unit_in(x: &[u8], release: u8, kgm: usize, tne: usize) -> Option<Form>
    ensures { result ≡ unit_is (loads.unit (content release x.now) (shape kgm 3) (shape tne 6)) }
{
    if content_is(x, release, b"KGM") {
        return Some(Form {
            whole: kgm,
            decimals: 3,
        });
    }
    if content_is(x, release, b"TNE") {
        return Some(Form {
            whole: tne,
            decimals: 6,
        });
    }
    None
}

fn is_mark(b: u8) -> bool
    ensures { result ≡ mark b }
{
    matches!(b, b',' | b'.')
}

// The grams of digits behind the mark: `v` are those before it; a digit that is not there counts as 0.
fn fraction(x: &[u8], from: usize, release: u8, v: u64, decimals: usize) -> Option<u64>
    requires { (v < 1000000000000) × (decimals ≤ 6) }
    ensures { result ≡ fraction_of v decimals (content release (drop from x.now)) }
{
    let mut i = from;
    let mut n: usize = 0;
    let mut g = v;
    while let Some((b, j)) = next_octet(x, i, release) {
        if b < 48 {
            return None;
        }
        if 57 < b {
            return None;
        }
        if decimals <= n {
            return None;
        }
        g = g * 10 + (wide(b) - 48);
        n += 1;
        i = j;
    }
    if n == 0 {
        return None;
    }
    Some(scaled(g, decimals - n))
}

// How much a digit counts that stands before so many others.
fn power(zeros: usize) -> u64
    requires { zeros ≤ 6 }
    ensures { result ≡ tens zeros }
{
    match zeros {
        0 => 1,
        1 => 10,
        2 => 100,
        3 => 1000,
        4 => 10000,
        5 => 100000,
        _ => 1000000,
    }
}

fn scaled(v: u64, zeros: usize) -> u64
    requires zeros_bound { v * tens zeros < 1000000000000000000 }
    requires zeros_bound_2 { zeros ≤ 6 }
    ensures { result ≡ v * tens zeros }
{
    v * power(zeros)
}

// The grams that the content from here gives, where it is digits, optionally a mark and digits.
fn weight_from(x: &[u8], from: usize, release: u8, f: Form) -> Option<u64>
    requires { (f.whole ≤ 12) × (f.decimals ≤ 6) }
    ensures { result ≡ weight_is (weight_right (shape f.whole f.decimals) (content release (drop from x.now))) (weight (shape f.whole f.decimals) (content release (drop from x.now))) }
{
    let mut i = from;
    let mut n: usize = 0;
    let mut v: u64 = 0;
    while let Some((b, j)) = next_octet(x, i, release) {
        if is_mark(b) {
            if n == 0 {
                return None;
            }
            return fraction(x, j, release, v, f.decimals);
        }
        if b < 48 {
            return None;
        }
        if 57 < b {
            return None;
        }
        if f.whole <= n {
            return None;
        }
        v = v * 10 + (wide(b) - 48);
        n += 1;
        i = j;
    }
    if n == 0 {
        return None;
    }
    Some(scaled(v, f.decimals))
}

// Where the content goes on behind a leading minus; 0 where none leads.
fn behind_minus(x: &[u8], release: u8) -> usize
    ensures { Unsigned (content release x.now) result (content release (drop result x.now)) }
{
    match next_octet(x, 0, release) {
        Some((b'-', next)) => next,
        _ => 0,
    }
}

// The grams behind a leading minus, of content that is not written right without one.
fn reversed_in(x: &[u8], release: u8, f: Form) -> Option<(u64, bool)>
    requires whole_bound { (f.whole ≤ 12) × (f.decimals ≤ 6) }
    requires x_value { weight_right (shape f.whole f.decimals) (content release x.now) ≡ false }
    ensures { result ≡ amount_is (amount_right (shape f.whole f.decimals) (content release x.now)) (grams (shape f.whole f.decimals) (content release x.now)) }
{
    let from = behind_minus(x, release);
    if from == 0 {
        return None;
    }
    let n = weight_from(x, from, release, f)?;
    Some((n, 0 < n))
}

// The grams that the content gives, where it is written right: without their sign, and whether they are below zero; 0 grams are not. Few amounts have a minus, so it is looked for where no digits lead.
pub fn amount_in(x: &[u8], release: u8, f: Form) -> Option<(u64, bool)>
    requires { (f.whole ≤ 12) × (f.decimals ≤ 6) }
    ensures { result ≡ amount_is (amount_right (shape f.whole f.decimals) (content release x.now)) (grams (shape f.whole f.decimals) (content release x.now)) }
{
    match weight_from(x, 0, release, f) {
        Some(n) => Some((n, false)),
        None => reversed_in(x, release, f),
    }
}
