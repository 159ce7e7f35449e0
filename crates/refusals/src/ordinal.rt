// The ordinal of the segment at a place: UNB is 1, UNA counts as none, and an end of input counts as the next ordinal.
ghost use Rattle.std.specs.Prelude.{◌≡◌, ◌≤◌, false, length};
ghost use Rattle.syntax.specs.Cutting.{ends};
ghost use Rattle.syntax.specs.Ordinal.{ordinal_of};
ghost use Rattle.refusals.specs.Counting.{ends_here, frees_next};

use beginning::before_unb;
use syntax::Service;
use syntax::content::part;

// Whether the octet ends a segment, where `freed` tells that the one before it releases it.
fn ends_here(v: Service, freed: bool, b: u8) -> bool
    ensures { result ≡ ends_here v freed b }
{
    !freed && b != 32 && b != v.release && b == v.terminator
}

// Whether it releases the next one.
fn frees_next(v: Service, freed: bool, b: u8) -> bool
    ensures { result ≡ frees_next v freed b }
{
    !freed && b != 32 && b == v.release
}

// How many segments end in `x`.
fn count_ends(x: &[u8], v: Service) -> usize
    ensures { (result ≡ length (ends v false x.now 0)) × (result ≤ length x.now) }
{
    let mut n: usize = 0;
    let mut freed = false;
    for &b in x {
        n += usize::from(ends_here(v, freed, b));
        freed = frees_next(v, freed, b);
    }
    n
}

// The ordinal of the segment at `place`; 0 where UNA is bad or the length is.
// Kept: 0 and no Option, since `ordinal_of` and the refusals that are given back have that number.
pub fn ordinal(s: &[u8], place: usize) -> usize
    ensures { result ≡ ordinal_of s.now place }
{
    match before_unb(s) {
        Err(_) => 0,
        Ok(o) => count_ends(part(s, o.at, place), o.service) + 1,
    }
}
