// Parts of the interchange as content, laid into a lent buffer.
ghost use Rattle.std.specs.Prelude.{◌+◌, ◌≤◌, ◌<◌, length};
ghost use Rattle.syntax.specs.Content.{content};
ghost use Rattle.groups.specs.Groups.{name_at};
ghost use Rattle.writing.specs.Laid.{Laid};

use syntax::classes::Classes;
use syntax::content::next_octet;
use syntax::reading::component_part;
use writing::store;

// The content of `x`.
fn put_content(out: &mut [u8], at: usize, x: &[u8], release: u8) -> usize
    requires { at + length x.now < 18446744073709551616 }
    ensures laid { Laid out.old at (content release x.now) result out.new }
    ensures upper_bound { result ≤ at + length x.now }
{
    let mut i: usize = 0;
    let mut p = at;
    while let Some((b, next)) = next_octet(x, i, release) {
        store(&mut *out, p, b);
        p += 1;
        i = next;
    }
    p
}

// The first component of element `e` of the segment at `a`.
pub fn put_name(out: &mut [u8], at: usize, s: &[u8], a: usize, t: &Classes, e: usize) -> usize
    requires s_len_bound { (length s.now ≤ 65535) × (at + 65535 < 18446744073709551616) }
    ensures laid { Laid out.old at (name_at t.now.syntax.service s.now a e) result out.new }
    ensures upper_bound { result ≤ at + 65535 }
{
    put_content(
        out,
        at,
        component_part(s, a, t, e, 0),
        t.syntax.service.release,
    )
}
