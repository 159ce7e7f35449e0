// Writing into a lent buffer. Every writer lays its text from a place on, as far as the buffer has room, and answers the
// place after it: laid into no room, a text is measured by the very call that writes it.
#![tactic(auto)]

ghost use Rattle.std.specs.Prelude.{◌≡◌, ◌+◌, ◌%◌, ◌≤◌, ◌<◌, length, set};
ghost use Rattle.writing.specs.Decimal.{decimal_of, Filled};
ghost use Rattle.writing.specs.Laid.{Laid};
ghost use Rattle.writing.specs.Written.{refused_as, too_long};

use syntax::Refusal;

// A call that writes a text answers how long the text is, or why there is none: here, why.
// Kept: a refusal's number is no enum, since the clauses and those who call give and take the number itself.
pub fn refused(number: u8) -> Result<usize, Refusal>
    ensures { result ≡ refused_as number }
{
    Err(Refusal {
        number,
        place: 0,
        segment: 0,
    })
}

// Whether `n` octets are too long to be written: number 15.
pub fn too_long(room: usize, n: usize) -> bool
    ensures { result ≡ too_long room n }
{
    65535 < n || room < n
}

// One octet, where there is room for it.
pub fn store(out: &mut [u8], at: usize, b: u8)
    ensures { out.new ≡ set out.old at b }
{
    if at < out.len() {
        out[at] = b;
    }
}

// Copied one by one: `copy_from_slice` would ask whoever links the library for C for memmove, and most texts are short.
fn copy(to: &mut [u8], from: &[u8])
    requires { length to.old ≡ length from.now }
    ensures { to.new ≡ from.now }
{
    for i in 0..to.len() {
        to[i] = from[i];
    }
}

// The octets of `v`, as far as there is room.
pub fn put(out: &mut [u8], at: usize, v: &[u8]) -> usize
    requires { at + length v.now < 18446744073709551616 }
    ensures { Laid out.old at v.now result out.new }
{
    if at < out.len() {
        let n = v.len().min(out.len() - at);
        copy(&mut out[at..at + n], &v[..n]);
    }
    at + v.len()
}

fn digit(n: u64) -> u8
    ensures { result ≡ 48 + n % 10 }
{
    (48 + n % 10) as u8
}

// The digits of `n` at the end of `digits`, the last one last; where they start.
fn fill(digits: &mut [u8; 20], n: u64) -> usize
    requires { length digits.old ≡ 20 }
    ensures { Filled n result digits.new }
{
    let mut m = n;
    let mut k: usize = 19;
    while 9 < m {
        digits[k] = digit(m);
        m = m / 10;
        k -= 1;
    }
    digits[k] = digit(m);
    k
}

// A number in decimal, without leading zeros.
pub fn put_number(out: &mut [u8], at: usize, n: u64) -> usize
    requires { at + 20 < 18446744073709551616 }
    ensures laid { Laid out.old at (decimal_of n) result out.new }
    ensures upper_bound { result ≤ at + 20 }
{
    let mut digits = [0u8; 20];
    let k = fill(&mut digits, n);
    put(&mut *out, at, &digits[k..])
}
