// The message that a call names by its 0062: the interchange is judged, and of that message it is told where its parts stand.
#![tactic(auto)]

ghost use Rattle.std.specs.Prelude.{◌≡◌, ◌≤◌, ◌<◌, ◌*◌, T, length};
ghost use Rattle.syntax.specs.Content.{compared, content};
ghost use Rattle.syntax.specs.Service.{fit};
ghost use Rattle.walk.specs.Runs.{Fresh};
ghost use Rattle.finding.specs.Finding.{named_by, FoundIs};

use syntax::Breach;
use syntax::classes::Classes;
use syntax::content::{bare, part, same_reference};
use walk::sections::{Layout, next_section, unread};

// Whether the section closed the message with this 0062, whose content is that of `reference` under the release `other`.
fn is_named(s: &[u8], release: u8, closed: bool, c: Layout, reference: &[u8], other: u8) -> bool
    ensures { result ≡ named_by release s.now closed c (compared (content other reference.now)) }
{
    if closed {
        let w = c.reference;
        return same_reference(part(s, w.start, w.end), release, reference, other);
    }
    false
}

// Copied one by one: `*rows = *here` would ask whoever links the library for C for memmove.
fn keep(rows: &mut [usize; 18], here: &[usize; 18])
    requires { (length rows.old ≡ 18) × (length here.now ≡ 18) }
    ensures { rows.new ≡ here.now }
{
    for i in 0..18 {
        rows[i] = here[i];
    }
}

// Every section from `from` on; of the message with the 0062 `reference` the layout, and in `rows` where its groups start. None: no message has that 0062.
fn find_among(
    s: &[u8],
    from: usize,
    t: &Classes,
    reference: &[u8],
    other: u8,
    names: &mut [u64],
    slots: &mut [u16],
    marks: &mut [usize],
    heads: &mut [usize; 36],
    here: &mut [usize; 18],
    rows: &mut [usize; 18],
) -> Result<Option<Layout>, Breach>
    requires fresh { Fresh t.now.syntax s.now names.old slots.old }
    requires marks_len { (length marks.old ≡ 40) × (length heads.old ≡ 36) × (length here.old ≡ 18) × (length rows.old ≡ 18) }
    ensures { FoundIs t.now.syntax s.now from (compared (content other reference.now)) result rows.new }
{
    let mut state = unread();
    let mut at = from;
    let mut found = None;
    let release = t.syntax.service.release;
    while let Some(section) = next_section(s, at, t, state, marks, heads, names, slots, here)? {
        if is_named(s, release, section.closed, section.layout, reference, other) {
            keep(rows, here);
            found = Some(section.layout);
        }
        state = section.state;
        at = section.next;
    }
    Ok(found)
}

// With a table of references and the slots that they are found by: their sizes are known where the code is made, as the library takes no memory of its own.
fn find_within<const NAMES: usize, const SLOTS: usize>(
    s: &[u8],
    from: usize,
    t: &Classes,
    reference: &[u8],
    other: u8,
    rows: &mut [usize; 18],
) -> Result<Option<Layout>, Breach>
    requires t { T (fit t.now.syntax.service) }
    requires room { (length s.now ≤ 65535) × (length s.now ≤ 4 * NAMES) × (NAMES < SLOTS) × (SLOTS ≤ 65536) × (length rows.old ≡ 18) }
    ensures { FoundIs t.now.syntax s.now from (compared (content other reference.now)) result rows.new }
{
    let mut names = [0u64; NAMES];
    let mut slots = [0u16; SLOTS];
    let mut marks = [0usize; 40];
    let mut heads = [0usize; 36];
    let mut here = [0usize; 18];
    find_among(
        s, from, t, reference, other, &mut names, &mut slots, &mut marks, &mut heads, &mut here,
        rows,
    )
}

// The message with the 0062 `reference`, read under the release `other` (32: none), of an interchange whose UNB stands at `from`. However many spaces stand
// at the reference's end, they are passed over once.
pub fn find(
    s: &[u8],
    from: usize,
    t: &Classes,
    reference: &[u8],
    other: u8,
    rows: &mut [usize; 18],
) -> Result<Option<Layout>, Breach>
    requires t { T (fit t.now.syntax.service) }
    requires s_len_bound { (length s.now ≤ 65535) × (length rows.old ≡ 18) }
    ensures { FoundIs t.now.syntax s.now from (compared (content other reference.now)) result rows.new }
{
    let bared = bare(reference, other);
    if s.len() <= 2048 {
        return find_within::<512, 763>(s, from, t, bared, other, rows);
    }
    find_within::<16384, 20405>(s, from, t, bared, other, rows)
}
