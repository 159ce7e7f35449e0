// The two sealing calls.
ghost use Rattle.std.specs.Prelude.{◌≡◌, List, true, ℕ, ◌+◌, ◌≤◌, ◌<◌, length};
ghost use Rattle.grammar.specs.Interchange.{message};
ghost use Rattle.grammar.specs.Named.{placed};
ghost use Rattle.writing.specs.Laid.{Laid, together};
ghost use Rattle.writing.specs.Written.{text, Writes};
ghost use Rattle.groups.specs.Calls.{Holds};
ghost use Rattle.weaving.specs.Seals.{length_right, text_by};
ghost use Rattle.weaving.specs.Woven.{count_at, count_end, octets_pieces, rest_pieces, sealed_pieces, woven_or, sized_or};
ghost use Rattle.sealing.specs.Sealing.{octets_at, seal_octets_of, seal_at, seal_of};

use groups::calls::{Opened, message_named};
use syntax::classes::Classes;
use syntax::content::{digits_value, part};
use syntax::cutting::stop;
use syntax::reading::component_part;
use syntax::{Refusal, Service};
use walk::sections::Layout;
use weaving::allowed::{is_value_length, may_seal};
use weaving::pieces::{put_header, put_trailer};
use weaving::value::{filter_text, is_writable};
use writing::{put, put_number, refused, too_long};

// ---- the octets to be signed

// The new header group, then the body.
fn put_octets(
    out: &mut [u8],
    s: &[u8],
    v: Service,
    c: Layout,
    reference: &[u8],
    filter: u64,
) -> usize
    requires { (length s.now ≤ 65535) × (length reference.now ≤ 14) }
    ensures { Laid out.old 0 (together (octets_pieces v s.now c reference.now filter)) result out.new }
{
    let p = put_header(&mut *out, 0, v, reference, filter);
    put(&mut *out, p, part(s, c.body, c.tail))
}

// Kept: it measures, and then lays, as write_sealed does; one function for both would take what they lay as a closure over a lent buffer, whose clauses are longer than these lines.
fn write_octets(
    s: &[u8],
    v: Service,
    c: Layout,
    reference: &[u8],
    filter: u64,
    out: &mut [u8],
) -> Result<usize, Refusal>
    requires { (length s.now ≤ 65535) × (length reference.now ≤ 14) }
    ensures { Writes (text (together (octets_pieces v s.now c reference.now filter))) out.old result out.new }
{
    let mut none = [0u8; 1];
    let m = put_octets(&mut none, s, v, c, reference, filter);
    if too_long(out.len(), m) {
        return refused(15);
    }
    put_octets(&mut *out, s, v, c, reference, filter);
    Ok(m)
}

fn octets_in(
    s: &[u8],
    x: &Opened,
    reference: &[u8],
    filter: u64,
    out: &mut [u8],
) -> Result<usize, Refusal>
    requires s_len_bound { (length s.now ≤ 65535) × (x.now.layout.headers ≤ 9) }
    ensures { (m : List ℕ) (h : Holds s.now m x.now.classes.syntax x.now.layout x.now.rows) → Writes (octets_at h.i (placed (message h.o h.t) h.q) reference.now filter) out.old result out.new }
{
    if may_seal(s, x, reference, filter) {
        return write_octets(
            s,
            x.classes.syntax.service,
            x.layout,
            reference,
            filter,
            out,
        );
    }
    refused(16)
}

// The scope 1 octets to be signed, for the header that sealing the message `message` with this reference and filter would put in.
pub fn seal_octets(
    s: &[u8],
    message: &[u8],
    reference: &[u8],
    filter: u64,
    out: &mut [u8],
) -> Result<usize, Refusal>
    ensures { Writes (seal_octets_of s.now message.now reference.now filter) out.old result out.new }
{
    let Some(found) = message_named(s, message)? else {
        return refused(13);
    };
    octets_in(s, &found, reference, filter, out)
}

// ---- the sealed interchange

// 0074, grown by 4.
fn grown(s: &[u8], t: &Classes, unt: usize) -> u64
    ensures { result ≡ count_at t.now.syntax.service s.now unt }
{
    match digits_value(component_part(s, unt, t, 1, 0), t.syntax.service.release) {
        Some(n) => n + 4,
        None => 4,
    }
}

// Where 0074 ends.
fn count_end(s: &[u8], t: &Classes, unt: usize) -> usize
    requires unt_bound { unt ≤ 65535 }
    ensures { result ≡ count_end t.now.syntax.service s.now unt }
{
    stop(s, unt + 4, t, 4).unwrap_or(s.len())
}

// UNT with 0074 grown by 4, and all behind it.
fn put_rest(out: &mut [u8], at: usize, s: &[u8], t: &Classes, unt: usize) -> usize
    requires at_bound { (at < 1073741824) × (length s.now ≤ 65535) × (unt ≤ 65535) }
    ensures { Laid out.old at (together (rest_pieces t.now.syntax.service s.now unt)) result out.new }
{
    let p1 = put(&mut *out, at, part(s, unt, unt + 4));
    let p2 = put_number(&mut *out, p1, grown(s, t, unt));
    put(&mut *out, p2, part(s, count_end(s, t, unt), s.len()))
}

fn put_sealed(
    out: &mut [u8],
    s: &[u8],
    x: &Opened,
    reference: &[u8],
    filter: u64,
    letters: &[u8],
) -> usize
    requires s_len_bound { (length s.now ≤ 65535) × (x.now.layout.unt ≤ 65535) × (length reference.now ≤ 14) × (length letters.now ≤ 512) }
    ensures { Laid out.old 0 (together (sealed_pieces x.now.classes.syntax.version x.now.classes.syntax.service s.now x.now.layout reference.now filter letters.now)) result out.new }
{
    let t = &x.classes;
    let c = x.layout;
    let p1 = put(&mut *out, 0, part(s, 0, c.heads));
    let p2 = put_header(&mut *out, p1, t.syntax.service, reference, filter);
    let p3 = put(&mut *out, p2, part(s, c.heads, c.unt));
    let p4 = put_trailer(&mut *out, p3, t, reference, letters);
    put_rest(&mut *out, p4, s, t, c.unt)
}

fn write_sealed(
    s: &[u8],
    x: &Opened,
    reference: &[u8],
    filter: u64,
    letters: &[u8],
    out: &mut [u8],
) -> Result<usize, Refusal>
    requires s_len_bound { (length s.now ≤ 65535) × (x.now.layout.unt ≤ 65535) × (length reference.now ≤ 14) × (length letters.now ≤ 512) }
    ensures { Writes (text (together (sealed_pieces x.now.classes.syntax.version x.now.classes.syntax.service s.now x.now.layout reference.now filter letters.now))) out.old result out.new }
{
    let mut none = [0u8; 1];
    let m = put_sealed(&mut none, s, x, reference, filter, letters);
    if too_long(out.len(), m) {
        return refused(15);
    }
    put_sealed(&mut *out, s, x, reference, filter, letters);
    Ok(m)
}

// With a value of a length that is allowed: 14 where its text can't be written.
fn seal_text(
    s: &[u8],
    x: &Opened,
    reference: &[u8],
    filter: u64,
    value: &[u8],
    out: &mut [u8],
) -> Result<usize, Refusal>
    requires s_len_bound { (length s.now ≤ 65535) × (x.now.layout.unt ≤ 65535) × (length reference.now ≤ 14) × (length_right x.now.classes.syntax.version filter value.now ≡ true) }
    ensures { Writes (woven_or x.now.classes.syntax s.now x.now.layout reference.now filter (text_by filter value.now)) out.old result out.new }
{
    let mut room = [0u8; 512];
    let n = filter_text(&mut room, filter, value);
    let letters = part(&room, 0, n);
    if is_writable(&x.classes, letters) {
        return write_sealed(s, x, reference, filter, letters, out);
    }
    refused(14)
}

// In a message that may be sealed: 16 where the value's length is not allowed.
fn seal_value(
    s: &[u8],
    x: &Opened,
    reference: &[u8],
    filter: u64,
    value: &[u8],
    out: &mut [u8],
) -> Result<usize, Refusal>
    requires s_len_bound { (length s.now ≤ 65535) × (x.now.layout.unt ≤ 65535) × (length reference.now ≤ 14) }
    ensures { Writes (sized_or x.now.classes.syntax s.now x.now.layout reference.now filter value.now) out.old result out.new }
{
    if is_value_length(x.classes.syntax.version, filter, value.len()) {
        return seal_text(s, x, reference, filter, value, out);
    }
    refused(16)
}

fn seal_in(
    s: &[u8],
    x: &Opened,
    reference: &[u8],
    filter: u64,
    value: &[u8],
    out: &mut [u8],
) -> Result<usize, Refusal>
    requires s_len_bound { (length s.now ≤ 65535) × (x.now.layout.unt ≤ 65535) × (x.now.layout.headers ≤ 9) }
    ensures { (m : List ℕ) (h : Holds s.now m x.now.classes.syntax x.now.layout x.now.rows) → Writes (seal_at h.i (placed (message h.o h.t) h.q) m reference.now filter value.now) out.old result out.new }
{
    if may_seal(s, x, reference, filter) {
        return seal_value(s, x, reference, filter, value, out);
    }
    refused(16)
}

// The interchange with the message `message` sealed.
pub fn seal(
    s: &[u8],
    message: &[u8],
    reference: &[u8],
    filter: u64,
    value: &[u8],
    out: &mut [u8],
) -> Result<usize, Refusal>
    ensures { Writes (seal_of s.now message.now reference.now filter value.now) out.old result out.new }
{
    let Some(found) = message_named(s, message)? else {
        return refused(13);
    };
    seal_in(s, &found, reference, filter, value, out)
}
