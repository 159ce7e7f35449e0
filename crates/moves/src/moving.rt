// A stored register in another form. Nothing is copied: an entry is read and laid, one after the other, however many there are.
ghost use Rattle.writing.specs.Written.{Writes};
ghost use Rattle.moves.specs.Stored.{move_of, Lays};

use crate::reading::{read_count, read_entry};
use forms::{Form, or_below, put_count, put_entry, sign_lost, too_large};
use syntax::Refusal;
use writing::{refused, too_long};

// As far as `out` has room, and its length; or 17, of the whole of it, before 19.
fn transcribe(stored: &[u8], from: Form, to: Form, out: &mut [u8]) -> Result<usize, Refusal>
    ensures { Lays (move_of from to stored.now) out.old result out.new }
{
    let Some((n, a)) = read_count(stored, from) else {
        return refused(17);
    };
    let mut p = put_count(&mut *out, to, n);
    let mut i = a;
    let mut any = false;
    for _ in 0..n {
        let Some((e, q)) = read_entry(stored, i, from) else {
            return refused(17);
        };
        if too_large(to, e) {
            return refused(17);
        }
        any = or_below(any, e);
        p = put_entry(&mut *out, p, to, e);
        i = q;
    }
    if i != stored.len() {
        return refused(17);
    }
    if sign_lost(to, any) {
        return refused(19);
    }
    Ok(p)
}

// Measured in no room, and then laid into `out`.
pub fn register_move(stored: &[u8], from: Form, to: Form, out: &mut [u8]) -> Result<usize, Refusal>
    ensures { Writes (move_of from to stored.now) out.old result out.new }
{
    let m = transcribe(stored, from, to, &mut [])?;
    if too_long(out.len(), m) {
        return refused(15);
    }
    transcribe(stored, from, to, out)
}
