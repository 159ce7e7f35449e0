// The headers of the message now open, in a lent array: for header i, at 4 * i, start and end of its 0534, its segments, and 1 where a trailer has
// named it.
ghost use Rattle.std.specs.Prelude.{◌≡◌, ◌&&◌, not, ◌+◌, ◌*◌, ◌-◌, ◌^◌, ◌≤◌, ◌<◌, length, get_or};
ghost use Rattle.syntax.specs.Octets.{same};
ghost use Rattle.syntax.specs.Content.{compared, content};
ghost use Rattle.grammar.specs.Lists.{among};
ghost use Rattle.message.specs.Summary.{all_named};
ghost use Rattle.message.specs.Heads.{head_ref, head_refs, head_flag, head_flags, Pushed, GrownLast, Named};

use syntax::content::{part, same_reference};

// Whether one of the first `n` headers has the content of `x`.
pub fn header_named(s: &[u8], release: u8, heads: &[usize; 36], n: usize, x: &[u8]) -> bool
    requires { n ≤ 9 }
    ensures { result ≡ among (head_refs release s.now heads.now n) (compared (content release x.now)) }
{
    for i in 0..n {
        let a = heads[4 * i];
        let e = heads[4 * i + 1];
        if same_reference(part(s, a, e), release, x, release) {
            return true;
        }
    }
    false
}

// Whether no trailer has named header `i` yet, and its 0534 has the content of `x`.
pub fn is_free(s: &[u8], release: u8, heads: &[usize; 36], i: usize, x: &[u8]) -> bool
    requires { i < 9 }
    ensures { result ≡ (same (head_ref release s.now heads.now i) (compared (content release x.now)) && not (head_flag heads.now i)) }
{
    if heads[4 * i + 3] != 0 {
        return false;
    }
    let a = heads[4 * i];
    let e = heads[4 * i + 1];
    same_reference(part(s, a, e), release, x, release)
}

// Whether each is named.
pub fn all_named(heads: &[usize; 36], n: usize) -> bool
    requires { n ≤ 9 }
    ensures { result ≡ all_named (head_flags heads.now n) }
{
    for i in 0..n {
        if heads[4 * i + 3] == 0 {
            return false;
        }
    }
    true
}

// A header more, just begun by its USH.
pub fn push_header(heads: &mut [usize; 36], n: usize, a: usize, e: usize)
    requires n_bound { n < 9 }
    requires heads_len { length heads.old ≡ 36 }
    ensures { Pushed heads.old heads.new n a e }
{
    heads[4 * n] = a;
    heads[4 * n + 1] = e;
    heads[4 * n + 2] = 1;
    heads[4 * n + 3] = 0;
}

// A segment more in the last of `n` headers.
pub fn grow_last(heads: &mut [usize; 36], n: usize)
    requires n_bound { n ≤ 9 }
    requires heads_len { length heads.old ≡ 36 }
    requires n_bound_2 { 0 < n → get_or heads.old (4 * (n - 1) + 2) 0 < 2 ^ 32 }
    ensures { GrownLast heads.old heads.new n }
{
    if 0 < n {
        let k = 4 * (n - 1) + 2;
        heads[k] = heads[k] + 1;
    }
}

// Header `i` is named.
pub fn name_header(heads: &mut [usize; 36], n: usize, i: usize)
    requires i_lt_n { (i < n) × (n ≤ 9) }
    requires heads_len { length heads.old ≡ 36 }
    ensures { Named heads.old heads.new n i }
{
    heads[4 * i + 3] = 1;
}
