// The seal lines of a message: one for each header, in order.
ghost use Rattle.std.specs.Prelude.{◌≡◌, ◌+◌, ◌-◌, ◌≤◌, ◌<◌, length};
ghost use Rattle.syntax.specs.Octets.{same};
ghost use Rattle.groups.specs.Groups.{name_at};
ghost use Rattle.writing.specs.Laid.{Laid};
ghost use Rattle.lines.specs.Words.{seal_words, octets_words, covered_words};
ghost use Rattle.lines.specs.Seals.{next_at, one_at, two_at, seal_at, seals_at};

use crate::Listed;
use crate::words::put_name;
use groups::named::{group_like, trailers_of};
use syntax::content::content_is;
use syntax::reading::component_part;
use writing::{put, put_number};

// Scope 2: from the USH at `start` up to the UST of its trailer.
fn to_trailer(x: &Listed, start: usize) -> usize
    ensures { result ≡ two_at x.now.t.now.syntax.service x.now.s.now x.now.rows.now x.now.layout start }
{
    let reference = component_part(x.s, start, x.t, 2, 0);
    let release = x.t.syntax.service.release;
    match group_like(x.s, x.t, x.rows, trailers_of(x.layout), reference, release) {
        Some(trailer) => trailer.start.saturating_sub(start),
        None => 0,
    }
}

// Where header group `i` starts; behind the last one the body starts.
fn next_at(x: &Listed, i: usize) -> usize
    ensures { result ≡ next_at x.now.layout x.now.rows.now i }
{
    if i < x.layout.headers {
        return x.rows[i];
    }
    x.layout.body
}

// Whether the header at `start` has this scope code.
fn has_scope(x: &Listed, start: usize, code: &[u8]) -> bool
    ensures { result ≡ same (name_at x.now.t.now.syntax.service x.now.s.now start 3) code.now }
{
    content_is(
        component_part(x.s, start, x.t, 3, 0),
        x.t.syntax.service.release,
        code,
    )
}

fn put_octets(out: &mut [u8], at: usize, n: usize) -> usize
    requires { at + 28 < 18446744073709551616 }
    ensures laid { Laid out.old at (octets_words n) result out.new }
    ensures upper_bound { result ≤ at + 28 }
{
    let a = put(&mut *out, at, b" octets ");
    put_number(&mut *out, a, n as u64)
}

// What the header group from `start` to `end` covers: in scope 1 itself and the body. An F01 run, and the message of scope 3, lie in another interchange.
fn put_covered(out: &mut [u8], at: usize, x: &Listed, start: usize, end: usize) -> usize
    requires end_bound { (end ≤ 65535) × (at + 28 < 18446744073709551616) }
    ensures laid { Laid out.old at (covered_words (name_at x.now.t.now.syntax.service x.now.s.now start 3) (one_at x.now.layout start end) (two_at x.now.t.now.syntax.service x.now.s.now x.now.rows.now x.now.layout start)) result out.new }
    ensures upper_bound { result ≤ at + 28 }
{
    if has_scope(x, start, b"1") {
        let header = end.saturating_sub(start);
        let body = x.layout.tail.saturating_sub(x.layout.body);
        return put_octets(&mut *out, at, header + body);
    }
    if has_scope(x, start, b"2") {
        return put_octets(&mut *out, at, to_trailer(x, start));
    }
    at
}

// "seal A1 scope 1": the header whose USH stands at `start`.
fn put_seal(out: &mut [u8], at: usize, x: &Listed, start: usize) -> usize
    requires s_len_bound { (length x.now.s.now ≤ 65535) × (at + 131100 < 18446744073709551616) }
    ensures laid { Laid out.old at (seal_words (name_at x.now.t.now.syntax.service x.now.s.now start 2) (name_at x.now.t.now.syntax.service x.now.s.now start 3)) result out.new }
    ensures upper_bound { result ≤ at + 131100 }
{
    let a = put(&mut *out, at, b"seal ");
    let b = put_name(&mut *out, a, x.s, start, x.t, 2);
    let c = put(&mut *out, b, b" scope ");
    put_name(&mut *out, c, x.s, start, x.t, 3)
}

// "seal A1 scope 1 octets 82"
fn seal_line(out: &mut [u8], at: usize, x: &Listed, start: usize, end: usize) -> usize
    requires end_bound { (end ≤ 65535) × (length x.now.s.now ≤ 65535) × (at + 131200 < 18446744073709551616) }
    ensures laid { Laid out.old at (seal_at x.now.t.now.syntax.service x.now.s.now x.now.rows.now x.now.layout start end) result out.new }
    ensures upper_bound { result ≤ at + 131200 }
{
    let a = put_seal(&mut *out, at, x, start);
    let b = put_covered(&mut *out, a, x, start, end);
    put(&mut *out, b, b"\n")
}

pub fn seal_lines(out: &mut [u8], at: usize, x: &Listed) -> usize
    requires s_len_bound { (length x.now.s.now ≤ 65535) × (at + 1180800 < 18446744073709551616) }
    ensures laid { Laid out.old at (seals_at x.now.t.now.syntax.service x.now.s.now x.now.rows.now x.now.layout x.now.layout.headers x.now.layout.body) result out.new }
    ensures upper_bound { result ≤ at + 1180800 }
{
    let mut p = at;
    for i in 0..x.layout.headers {
        let end = next_at(x, i + 1);
        p = seal_line(&mut *out, p, x, x.rows[i], end);
    }
    p
}
