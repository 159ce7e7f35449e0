// The report: the interchange is judged, and each message that is read adds its lines.
ghost use Rattle.std.specs.Prelude.{◌≡◌, true, ◌+◌, ◌≤◌, ◌<◌, ◌*◌, T, length, Ok};
ghost use Rattle.syntax.specs.Service.{fit};
ghost use Rattle.syntax.specs.Opening.{begun_of};
ghost use Rattle.walk.specs.Runs.{Fresh};
ghost use Rattle.writing.specs.Laid.{Laid};
ghost use Rattle.lines.specs.Words.{refusal_line};
ghost use Rattle.listing.specs.Listing.{listing_of, Lists};
ghost use Rattle.lines.specs.Seals.{Near};
ghost use Rattle.listing.specs.Laying.{section_at, LaysAll};

use beginning::begin;
use lines::seals::seal_lines;
use lines::{Listed, accepted_line, message_line, refusal_line};
use refusals::refusal;
use syntax::Refusal;
use syntax::classes::Classes;
use walk::sections::{Layout, next_section, unread};
use writing::refused;

// A section more: a message that it closed has its line and those of its seals; UNB and UNZ have none.
fn put_section(
    out: &mut [u8],
    at: usize,
    s: &[u8],
    t: &Classes,
    closed: bool,
    c: Layout,
    rows: &[usize; 18],
) -> usize
    requires s_len_bound { (length s.now ≤ 65535) × (at + 1312000 < 18446744073709551616) × (closed ≡ true → Near c rows.now) }
    ensures laid { Laid out.old at (section_at t.now.syntax.service s.now rows.now c closed) result out.new }
    ensures upper_bound { result ≤ at + 1312000 }
{
    if closed {
        let message = Listed {
            s,
            t,
            rows,
            layout: c,
        };
        let a = message_line(&mut *out, at, s, t, c.unh, c.loads, c.grams, c.below);
        return seal_lines(&mut *out, a, &message);
    }
    at
}

// Every section from `from` on, with the lines of what was read; or why the interchange is refused.
fn lay_among(
    s: &[u8],
    from: usize,
    t: &Classes,
    names: &mut [u64],
    slots: &mut [u16],
    marks: &mut [usize],
    heads: &mut [usize; 36],
    rows: &mut [usize; 18],
    out: &mut [u8],
) -> Result<usize, Refusal>
    requires fresh { Fresh t.now.syntax s.now names.old slots.old }
    requires marks_len { (length marks.old ≡ 40) × (length heads.old ≡ 36) × (length rows.old ≡ 18) }
    ensures { LaysAll t.now.syntax s.now from out.old result out.new }
{
    let mut p = accepted_line(&mut *out, s, from, t);
    let mut state = unread();
    let mut at = from;
    // Kept: three arms, since a breach becomes a refusal on its way out; map_err with a closure before ? is no plainer.
    loop {
        match next_section(s, at, t, state, marks, heads, names, slots, rows) {
            Err(f) => return Err(refusal(s, f)),
            Ok(None) => return Ok(p),
            Ok(Some(section)) => {
                p = put_section(&mut *out, p, s, t, section.closed, section.layout, rows);
                state = section.state;
                at = section.next;
            }
        }
    }
}

// With a table of references and the slots that they are found by: their sizes are known where the code is made, as the library takes no memory of its own.
fn lay_within<const NAMES: usize, const SLOTS: usize>(
    s: &[u8],
    from: usize,
    t: &Classes,
    out: &mut [u8],
) -> Result<usize, Refusal>
    requires t { T (fit t.now.syntax.service) }
    requires room { (length s.now ≤ 65535) × (length s.now ≤ 4 * NAMES) × (NAMES < SLOTS) × (SLOTS ≤ 65536) }
    ensures { LaysAll t.now.syntax s.now from out.old result out.new }
{
    let mut names = [0u64; NAMES];
    let mut slots = [0u16; SLOTS];
    let mut marks = [0usize; 40];
    let mut heads = [0usize; 36];
    let mut rows = [0usize; 18];
    lay_among(
        s, from, t, &mut names, &mut slots, &mut marks, &mut heads, &mut rows, out,
    )
}

// The text for an interchange whose UNB stands at `from`, as far as `out` has room; or why it is refused.
fn lay(s: &[u8], from: usize, t: &Classes, out: &mut [u8]) -> Result<usize, Refusal>
    requires t { T (fit t.now.syntax.service) }
    requires s_len_bound { length s.now ≤ 65535 }
    ensures { LaysAll t.now.syntax s.now from out.old result out.new }
{
    if s.len() <= 2048 {
        return lay_within::<512, 763>(s, from, t, out);
    }
    lay_within::<16384, 20405>(s, from, t, out)
}

fn list_refusal(f: Refusal, out: &mut [u8]) -> Result<usize, Refusal>
    ensures { Lists (refusal_line f) out.old result out.new }
{
    let mut none = [0u8; 1];
    let m = refusal_line(&mut none, f);
    if out.len() < m {
        return refused(15);
    }
    refusal_line(out, f);
    Ok(m)
}

// The text is measured in no room, and then laid.
fn list_from(s: &[u8], from: usize, t: &Classes, out: &mut [u8]) -> Result<usize, Refusal>
    requires t { T (fit t.now.syntax.service) }
    requires s_len_bound { (length s.now ≤ 65535) × (begun_of s.now ≡ Ok (record { syntax = t.now.syntax; at = from })) }
    ensures { Lists (listing_of s.now) out.old result out.new }
{
    let mut none = [0u8; 1];
    match lay(s, from, t, &mut none) {
        Err(f) => list_refusal(f, out),
        Ok(m) => {
            if out.len() < m {
                return refused(15);
            }
            lay(s, from, t, out)
        }
    }
}

// The report's text for any octets: its length, and the text first in `out`; 15 where `out` is shorter. The limit of 65,535 octets on
// what a call writes is not this call's, since every interchange has a report. A buffer of 131,072 octets is always enough: that is
// reckoned and not proved, from the worst case, a message of 16 octets that has a line of 28.
pub fn listing(s: &[u8], out: &mut [u8]) -> Result<usize, Refusal>
    ensures { Lists (listing_of s.now) out.old result out.new }
{
    match begin(s) {
        Err(f) => list_refusal(refusal(s, f), out),
        Ok(start) => list_from(s, start.at, &Classes::of(start.syntax), out),
    }
}
