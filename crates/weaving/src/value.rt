// VALUE as text: by the filter, and with the service characters in it released.
ghost use Rattle.std.specs.Prelude.{◌≡◌, [], ◌∷◌, ◌+◌, ◌*◌, ◌≤◌, ◌<◌, length};
ghost use Rattle.syntax.specs.Service.{serves};
ghost use Rattle.syntax.specs.Octets.{all_pass};
ghost use Rattle.writing.specs.Laid.{Laid};
ghost use Rattle.weaving.specs.Seals.{text_by, may_write};
ghost use Rattle.weaving.specs.Woven.{released_text};

use filters::hex::hex_text;
use filters::six::six_text;
use syntax::classes::Classes;
use syntax::repertoire::OUTSIDE;
use writing::store;

// The text that the filter F gives VALUE.
pub fn filter_text(out: &mut [u8], filter: u64, value: &[u8]) -> usize
    requires { length value.now ≤ 384 }
    ensures { Laid out.old 0 (text_by filter value.now) result out.new }
{
    if filter == 2 {
        return hex_text(out, 0, value);
    }
    six_text(out, 0, value)
}

// Whether an octet is a service character in force.
fn is_service(t: &Classes, b: u8) -> bool
    ensures { result ≡ serves t.now.syntax.service b }
{
    let c = t.class(b);
    1 < c && c != OUTSIDE
}

fn may_write(t: &Classes, b: u8) -> bool
    ensures { result ≡ may_write t.now.syntax b }
{
    if is_service(t, b) {
        return t.syntax.service.release != 32;
    }
    t.class(b) <= 1
}

// Whether the text can be written: all of it is inside the repertoire, and where a service character is in it a release is in force.
pub fn is_writable(t: &Classes, text: &[u8]) -> bool
    ensures { result ≡ all_pass (may_write t.now.syntax) text.now }
{
    for b in text {
        if !may_write(t, *b) {
            return false;
        }
    }
    true
}

fn put_octet(out: &mut [u8], at: usize, t: &Classes, b: u8) -> usize
    requires at_bound { at < 4294967296 }
    ensures { Laid out.old at (released_text t.now.syntax.service (b ∷ [])) result out.new }
{
    if is_service(t, b) {
        store(&mut *out, at, t.syntax.service.release);
        store(&mut *out, at + 1, b);
        return at + 2;
    }
    store(&mut *out, at, b);
    at + 1
}

// The text with its service characters released.
pub fn put_released(out: &mut [u8], at: usize, t: &Classes, text: &[u8]) -> usize
    requires at_bound { (at < 2147483648) × (length text.now ≤ 512) }
    ensures laid { Laid out.old at (released_text t.now.syntax.service text.now) result out.new }
    ensures upper_bound { result ≤ at + 1024 }
{
    let mut p = at;
    for b in text {
        p = put_octet(&mut *out, p, t, *b);
    }
    p
}
