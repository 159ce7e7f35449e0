// Content: the octets of a part with releases dropped. Nothing is copied.
ghost use Rattle.std.specs.Prelude.{◌≡◌, Bool, true, false, ◌≤◌, ◌<◌, length, drop};
ghost use Rattle.std.proofs.Math.Seq.{slice};
ghost use Rattle.syntax.specs.Octets.{same};
ghost use Rattle.syntax.specs.Content.{blank, compared, content, all_digits};
ghost use Rattle.syntax.specs.Scanning.{next_of, number_in};

// The octets from `a` up to, not including, `e`, as far as `s` has them.
pub fn part<'a>(s: &'a [u8], a: usize, e: usize) -> &'a [u8]
    ensures { result.now ≡ slice a e s.now }
{
    let n = s.len();
    if e <= n {
        if a <= e {
            return &s[a..e];
        }
        return &s[0..0];
    }
    if a <= n {
        return &s[a..n];
    }
    &s[0..0]
}

// The next octet of content from `i` on, and the place after it. A release frees the octet after it; as the very last octet it frees nothing. A space is
// no release.
pub fn next_octet(x: &[u8], i: usize, release: u8) -> Option<(u8, usize)>
    ensures { result ≡ next_of release (drop i x.now) i }
{
    if x.len() <= i {
        return None;
    }
    let b = x[i];
    if b != release {
        return Some((b, i + 1));
    }
    if b == 32 {
        return Some((b, i + 1));
    }
    let j = i + 1;
    if x.len() <= j {
        return None;
    }
    Some((x[j], j + 1))
}

pub fn content_length(x: &[u8], release: u8) -> usize
    ensures { result ≡ length (content release x.now) }
{
    let mut i = 0;
    let mut n: usize = 0;
    while let Some((_, j)) = next_octet(x, i, release) {
        n += 1;
        i = j;
    }
    n
}

// Whether the content of `x` is `t`.
pub fn content_is(x: &[u8], release: u8, t: &[u8]) -> bool
    ensures { result ≡ same (content release x.now) t.now }
{
    let mut i = 0;
    let mut k = 0;
    while let Some((b, j)) = next_octet(x, i, release) {
        if t.len() <= k {
            return false;
        }
        if b != t[k] {
            return false;
        }
        i = j;
        k += 1;
    }
    k == t.len()
}

// The part of `x` that the spaces at the end of its content are not in, wherever releases stand.
fn bare_freed<'a>(x: &'a [u8], release: u8) -> &'a [u8]
    ensures { content release result.now ≡ compared (content release x.now) }
{
    let mut i: usize = 0;
    let mut end: usize = 0;
    while let Some((b, j)) = next_octet(x, i, release) {
        if b != 32 {
            end = j;
        }
        i = j;
    }
    &x[0..end]
}

// The same. Mostly the last octet that is no space is no release either: then neither a space behind it nor itself is freed by it, and it is told from
// the end.
pub fn bare<'a>(x: &'a [u8], release: u8) -> &'a [u8]
    ensures { content release result.now ≡ compared (content release x.now) }
{
    let mut n = x.len();
    while 0 < n {
        let last = x[n - 1];
        if last != 32 {
            if last != release {
                return &x[0..n];
            }
            return bare_freed(x, release);
        }
        n -= 1;
    }
    &x[0..0]
}

// Whether the content from `from` on is made only of spaces.
fn only_spaces(x: &[u8], from: usize, release: u8) -> bool
    ensures { result ≡ blank (content release (drop from x.now)) }
{
    let mut i = from;
    while let Some((b, j)) = next_octet(x, i, release) {
        if b != 32 {
            return false;
        }
        i = j;
    }
    true
}

// Octet by octet of content: where one ends first, the other may go on with spaces.
fn same_bare(x: &[u8], release: u8, z: &[u8], other: u8) -> bool
    ensures { result ≡ same (compared (content release x.now)) (compared (content other z.now)) }
{
    let mut i = 0;
    let mut k = 0;
    loop {
        let f = next_octet(x, i, release);
        let g = next_octet(z, k, other);
        match f {
            Some((b, j)) => match g {
                Some((c, l)) => {
                    if b != c {
                        return false;
                    }
                    i = j;
                    k = l;
                }
                None => {
                    return only_spaces(x, i, release);
                }
            },
            None => {
                return only_spaces(z, k, other);
            }
        }
    }
}

// Whether two references are the same. Mostly they are alike, which is soon told.
pub fn same_reference(x: &[u8], release: u8, z: &[u8], other: u8) -> bool
    ensures { result ≡ same (compared (content release x.now)) (compared (content other z.now)) }
{
    if release == other && x == z {
        return true;
    }
    same_bare(x, release, z, other)
}

// .. where the other is given to a call, as content: a space frees nothing.
pub fn reference_is(x: &[u8], release: u8, t: &[u8]) -> bool
    ensures { result ≡ same (compared (content release x.now)) (compared t.now) }
{
    same_bare(x, release, t, 32)
}

// Whether a reference is made only of spaces.
pub fn is_blank(x: &[u8], release: u8) -> bool
    ensures { result ≡ blank (content release x.now) }
{
    same_reference(x, release, b"", 32)
}

pub fn all_digits(x: &[u8], release: u8) -> bool
    ensures { result ≡ all_digits (content release x.now) }
{
    let mut i = 0;
    while let Some((b, j)) = next_octet(x, i, release) {
        if b < 48 {
            return false;
        }
        if 57 < b {
            return false;
        }
        i = j;
    }
    true
}

// Kept: `u64::from` says that it is the same number, and not that it is below 256, which every sum over octets needs.
pub fn wide(b: u8) -> u64
    ensures { (result ≡ b) × (result < 256) }
{
    u64::from(b)
}

// The number that the content gives, where it is 1 to 15 digits.
pub fn digits_value(x: &[u8], release: u8) -> Option<u64>
    ensures { result ≡ number_in (content release x.now) }
{
    let mut i = 0;
    let mut n: usize = 0;
    let mut v: u64 = 0;
    while let Some((b, j)) = next_octet(x, i, release) {
        if b < 48 {
            return None;
        }
        if 57 < b {
            return None;
        }
        if 15 <= n {
            return None;
        }
        v = v * 10 + (wide(b) - 48);
        n += 1;
        i = j;
    }
    if n == 0 {
        return None;
    }
    Some(v)
}
