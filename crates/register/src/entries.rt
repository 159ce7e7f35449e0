// The entries of a register, laid section by section.
ghost use Rattle.std.specs.Prelude.{◌≡◌, true, ◌+◌, ◌≤◌, ◌<◌};
ghost use Rattle.register.specs.Laying.{entry_at, section_at, none_from, Adds};

use forms::{Entry, Form, or_below, put_entry};
use walk::sections::Layout;

// How far entries are laid: those of so many messages, the place after them, and whether one of their totals is below zero.
#[derive(Clone, Copy)]
pub struct Extent {
    pub count: usize,
    pub end: usize,
    pub below: bool,
}

fn entry_of(c: Layout) -> Entry
    requires { c.unh ≤ c.end }
    ensures { result ≡ entry_at c }
{
    Entry {
        place: c.unh as u64,
        length: (c.end - c.unh) as u64,
        loads: c.loads as u64,
        grams: c.grams,
        below: c.below,
    }
}

// No entry yet: the first one is to stand at `start`.
pub fn none_from(start: usize) -> Extent
    ensures { result ≡ none_from start }
{
    Extent {
        count: 0,
        end: start,
        below: false,
    }
}

// A section more: a message that it closed has an entry; UNB and UNZ have none.
pub fn put_section(out: &mut [u8], x: Extent, form: Form, closed: bool, c: Layout) -> Extent
    requires { (x.count < 65536) × (x.end + 40 < 18446744073709551616) × (closed ≡ true → (c.unh ≤ c.end) × (c.grams < 9223372036854775808)) }
    ensures { Adds form out.old x (section_at c closed) result out.new }
{
    if closed {
        let e = entry_of(c);
        let end = put_entry(out, x.end, form, e);
        return Extent {
            count: x.count + 1,
            end,
            below: or_below(x.below, e),
        };
    }
    x
}
