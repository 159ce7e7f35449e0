// The new header group and the new trailer group.
ghost use Rattle.std.specs.Prelude.{◌≡◌, ◌+◌, ◌≤◌, ◌<◌, length};
ghost use Rattle.writing.specs.Laid.{Laid};
ghost use Rattle.weaving.specs.Woven.{header_text, trailer_text, ust_end, usr_open};

use crate::value::put_released;
use syntax::classes::Classes;
use syntax::opening::is_earlier;
use syntax::{Service, Syntax};
use writing::{put, put_number};

// USH+1+REF+1+1+F+2+1'USA+1:::16:1'
pub fn put_header(out: &mut [u8], at: usize, v: Service, reference: &[u8], filter: u64) -> usize
    requires { (at < 1073741824) × (length reference.now ≤ 14) }
    ensures laid { Laid out.old at (header_text v reference.now filter) result out.new }
    ensures upper_bound { result ≤ at + 100 }
{
    let open = [b'U', b'S', b'H', v.element, b'1', v.element];
    let middle = [v.element, b'1', v.element, b'1', v.element];
    let close = [v.element, b'2', v.element, b'1', v.terminator];
    let usa = [
        b'U',
        b'S',
        b'A',
        v.element,
        b'1',
        v.component,
        v.component,
        v.component,
        b'1',
        b'6',
        v.component,
        b'1',
        v.terminator,
    ];
    let p1 = put(&mut *out, at, &open);
    let p2 = put(&mut *out, p1, reference);
    let p3 = put(&mut *out, p2, &middle);
    let p4 = put_number(&mut *out, p3, filter);
    let p5 = put(&mut *out, p4, &close);
    put(&mut *out, p5, &usa)
}

// What ends UST behind REF: +4', and in the earlier edition '
fn put_close(out: &mut [u8], at: usize, y: Syntax) -> usize
    requires { at < 2147483648 }
    ensures laid { Laid out.old at (ust_end y.version y.service) result out.new }
    ensures upper_bound { result ≤ at + 3 }
{
    let v = y.service;
    if is_earlier(y.version) {
        let end = [v.terminator];
        return put(&mut *out, at, &end);
    }
    let close = [v.element, b'4', v.terminator];
    put(&mut *out, at, &close)
}

// What stands in USR before VALUE: USR+1: and in the earlier edition USR+
fn put_usr(out: &mut [u8], at: usize, y: Syntax) -> usize
    requires { at < 2147483648 }
    ensures laid { Laid out.old at (usr_open y.version y.service) result out.new }
    ensures upper_bound { result ≤ at + 6 }
{
    let v = y.service;
    if is_earlier(y.version) {
        let short = [b'U', b'S', b'R', v.element];
        return put(&mut *out, at, &short);
    }
    let usr = [b'U', b'S', b'R', v.element, b'1', v.component];
    put(&mut *out, at, &usr)
}

// UST+REF+4'USR+1:VALUE', and in the earlier edition UST+REF'USR+VALUE'
pub fn put_trailer(
    out: &mut [u8],
    at: usize,
    t: &Classes,
    reference: &[u8],
    letters: &[u8],
) -> usize
    requires at_bound { (at < 1073741824) × (length reference.now ≤ 14) × (length letters.now ≤ 512) }
    ensures laid { Laid out.old at (trailer_text t.now.syntax.version t.now.syntax.service reference.now letters.now) result out.new }
    ensures upper_bound { result ≤ at + 1100 }
{
    let v = t.syntax.service;
    let open = [b'U', b'S', b'T', v.element];
    let end = [v.terminator];
    let p1 = put(&mut *out, at, &open);
    let p2 = put(&mut *out, p1, reference);
    let p3 = put_close(&mut *out, p2, t.syntax);
    let p4 = put_usr(&mut *out, p3, t.syntax);
    let p5 = put_released(&mut *out, p4, t, letters);
    put(&mut *out, p5, &end)
}
