// Numbers in groups of seven bits, in the shortest form: how long, written, read.
#![tactic(auto)]

ghost use Rattle.std.specs.Prelude.{◌≡◌, ◌+◌, ◌≤◌, ◌<◌, length, drop};
ghost use Rattle.writing.specs.Laid.{Laid};
ghost use Rattle.seven.specs.Groups.{shortest, joined, read_from};

use writing::store;

// How many groups n takes: its binary digits are 64 less its leading zeros, seven to a group, and one group for 0.
pub fn size(n: u64) -> usize
    ensures { (result ≡ length (shortest n)) × (1 ≤ result) × (result ≤ 10) }
{
    let digits = 64 - n.leading_zeros();
    if digits == 0 {
        return 1;
    }
    ((digits + 6) / 7) as usize
}

// Lays n at a place of out, as far as there is room, and gives the place after it.
pub fn write(out: &mut [u8], at: usize, n: u64) -> usize
    requires { at + 10 < 18446744073709551616 }
    ensures laid { Laid out.old at (shortest n) result out.new }
    ensures upper_bound { result ≤ at + 10 }
{
    let last = at + size(n) - 1;
    let mut x = n;
    for i in at..last {
        store(&mut *out, i, (x % 128 + 128) as u8);
        x /= 128;
    }
    store(&mut *out, last, x as u8);
    last + 1
}

// A group before a number that was read: none where the two are overlong or stand for more than the most.
fn join(most: u64, g: u64, rest: Option<(u64, usize)>) -> Option<(u64, usize)>
    ensures { result ≡ joined most g rest }
{
    let (v, q) = rest?;
    if v == 0 || most < g || (most - g) / 128 < v {
        return None;
    }
    Some((v * 128 + g, q))
}

// Reads at most left groups from a place of s on: the number and the place after it; none where the groups are cut, overlong or stand for more than the
// most.
pub fn read(s: &[u8], at: usize, left: usize, most: u64) -> Option<(u64, usize)>
    ensures { result ≡ read_from left most (drop at s.now) at }
{
    if left == 0 {
        return None;
    }
    let b = u64::from(*s.get(at)?);
    if b < 128 {
        return if b <= most { Some((b, at + 1)) } else { None };
    }
    join(most, b - 128, read(s, at + 1, left - 1, most))
}
