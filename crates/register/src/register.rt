// Writing the register of an interchange, and checking one against it.
ghost use Rattle.std.specs.Prelude.{false, ◌≡◌, ◌≤◌, ◌<◌, ◌*◌, length, Err, MatchResult};
ghost use Rattle.syntax.specs.Refusals.{at_zero};
ghost use Rattle.grammar.specs.Verdict.{refused_with, verdict_of};
ghost use Rattle.walk.specs.Runs.{Fresh};
ghost use Rattle.writing.specs.Written.{Writes};
ghost use Rattle.forms.specs.Forms.{sign_lost};
ghost use Rattle.register.specs.Register.{register_of, check_of, told_check, check_numbers};
ghost use Rattle.register.specs.Laying.{BeginsAt, LaysAll, Measured, MeasuredAs, Lays};

use crate::entries::{Extent, none_from, put_section};
use beginning::begin;
use forms::{Form, put_count, sign_lost};
use refusals::refusal;
use syntax::Refusal;
use syntax::classes::Classes;
use syntax::content::{content_is, part};
use walk::sections::{next_section, unread};
use writing::{refused, too_long};

// An interchange that begins well: its octets, where its UNB stands, and the classes of its octets.
#[derive(Clone, Copy)]
struct Begun<'a> {
    s: &'a [u8],
    from: usize,
    classes: Classes,
    ghost begins: { BeginsAt classes.syntax s.now from },
}

// The octets begun, or why they do not begin well.
fn start(s: &[u8]) -> Result<Begun, Refusal>
    ensures { MatchResult result (λ x. x.s.now ≡ s.now) (λ f. verdict_of s.now ≡ refused_with f) }
{
    match begin(s) {
        Err(f) => Err(refusal(s, f)),
        Ok(start) => Ok(Begun {
            s,
            from: start.at,
            classes: Classes::of(start.syntax),
        }),
    }
}

// Every section, with the entries of what was read from `start` on: how far they reach; or why the interchange is refused.
fn lay_among(
    x: &Begun,
    form: Form,
    start: usize,
    names: &mut [u64],
    slots: &mut [u16],
    marks: &mut [usize],
    heads: &mut [usize; 36],
    rows: &mut [usize; 18],
    out: &mut [u8],
) -> Result<Extent, Refusal>
    requires start { start ≤ 65535 }
    requires fresh { Fresh x.now.classes.syntax x.now.s.now names.old slots.old }
    requires marks_len { (length marks.old ≡ 40) × (length heads.old ≡ 36) × (length rows.old ≡ 18) }
    ensures { LaysAll form start x.now.s.now out.old result out.new }
{
    let mut e = none_from(start);
    let mut state = unread();
    let mut at = x.from;
    // Kept: three arms, since a breach becomes a refusal on its way out; map_err with a closure before ? is no plainer.
    loop {
        match next_section(x.s, at, &x.classes, state, marks, heads, names, slots, rows) {
            Err(f) => return Err(refusal(x.s, f)),
            Ok(None) => return Ok(e),
            Ok(Some(section)) => {
                e = put_section(&mut *out, e, form, section.closed, section.layout);
                state = section.state;
                at = section.next;
            }
        }
    }
}

// With a table of references and the slots that they are found by: their sizes are known where the code is made, as the library takes no memory of its own.
fn lay_within<const NAMES: usize, const SLOTS: usize>(
    x: &Begun,
    form: Form,
    start: usize,
    out: &mut [u8],
) -> Result<Extent, Refusal>
    requires start { start ≤ 65535 }
    requires room { (length x.now.s.now ≤ 4 * NAMES) × (NAMES < SLOTS) × (SLOTS ≤ 65536) }
    ensures { LaysAll form start x.now.s.now out.old result out.new }
{
    let mut names = [0u64; NAMES];
    let mut slots = [0u16; SLOTS];
    let mut marks = [0usize; 40];
    let mut heads = [0usize; 36];
    let mut rows = [0usize; 18];
    lay_among(
        x, form, start, &mut names, &mut slots, &mut marks, &mut heads, &mut rows, out,
    )
}

// The entries of an interchange, laid from `start` on as far as `out` has room; or why it is refused.
fn lay(x: &Begun, form: Form, start: usize, out: &mut [u8]) -> Result<Extent, Refusal>
    requires start { start ≤ 65535 }
    ensures { LaysAll form start x.now.s.now out.old result out.new }
{
    if x.s.len() <= 2048 {
        return lay_within::<512, 763>(x, form, start, out);
    }
    lay_within::<16384, 20405>(x, form, start, out)
}

// How many messages the interchange has, and how long its register is: both are laid into no room.
fn measure(x: &Begun, form: Form) -> Result<Extent, Refusal>
    ensures { MeasuredAs form x.now.s.now result }
{
    let mut none = [0u8; 1];
    let e = lay(x, form, 0, &mut none)?;
    let start = put_count(&mut none, form, e.count as u64);
    Ok(Extent {
        end: start + e.end,
        ..e
    })
}

// The count of messages, and their entries behind it.
fn fill(x: &Begun, form: Form, e: Extent, out: &mut [u8]) -> Result<usize, Refusal>
    requires measured { Measured form x.now.s.now e × (sign_lost form e.below ≡ false) }
    ensures { Lays (register_of form x.now.s.now) out.old result out.new }
{
    let start = put_count(&mut *out, form, e.count as u64);
    let laid = lay(x, form, start, out)?;
    Ok(laid.end)
}

// Measured, and then laid: 19 before 15.
fn write_from(x: &Begun, form: Form, out: &mut [u8]) -> Result<usize, Refusal>
    ensures { Writes (register_of form x.now.s.now) out.old result out.new }
{
    let e = measure(x, form)?;
    if sign_lost(form, e.below) {
        return refused(19);
    }
    if too_long(out.len(), e.end) {
        return refused(15);
    }
    fill(x, form, e, out)
}

// The register of an interchange in a form, into `out`.
pub fn register_write(s: &[u8], form: Form, out: &mut [u8]) -> Result<usize, Refusal>
    ensures { Writes (register_of form s.now) out.old result out.new }
{
    write_from(&start(s)?, form, out)
}

// 13: another register.
fn differs() -> Result<(), Refusal>
    ensures { result ≡ Err (at_zero 13) }
{
    Err(Refusal {
        number: 13,
        place: 0,
        segment: 0,
    })
}

// Compared with what is written for the interchange. A register too long to be written, or without place for a minus, is none.
fn check_from(x: &Begun, form: Form, register: &[u8]) -> Result<(), Refusal>
    ensures { result ≡ check_of form x.now.s.now register.now }
{
    let e = measure(x, form)?;
    if sign_lost(form, e.below) {
        return differs();
    }
    if 65535 < e.end {
        return differs();
    }
    let mut own = [0u8; 65535];
    let _ = fill(x, form, e, &mut own);
    if content_is(part(&own, 0, e.end), 32, register) {
        return Ok(());
    }
    differs()
}

// Whether `register` is the register of the interchange in this form: equal octets, or 13.
pub fn register_check(s: &[u8], form: Form, register: &[u8]) -> Result<(), Refusal>
    ensures value { result ≡ check_of form s.now register.now }
    ensures result_value { told_check result ≡ check_numbers form s.now register.now }
{
    check_from(&start(s)?, form, register)
}
