// A stored register as it is read: its count and its entries, in each form. Places and lengths in it are compared with nothing.
ghost use Rattle.std.specs.Prelude.{◌≡◌, ◌≤◌, drop};
ghost use Rattle.grammar.specs.Grams.{magnitude, below};
ghost use Rattle.moves.specs.Stored.{high_from, number_at, grams_by, entry_at, count_at};

use forms::{Entry, Form, mark};

// So many octets, highest first, and a number of at most so much; and the place after them.
fn read_octets(s: &[u8], at: usize, k: usize, most: u64) -> Option<(u64, usize)>
    requires { k ≤ 8 }
    ensures { result ≡ high_from k 0 most (drop at s.now) at }
{
    let mut v: u64 = 0;
    let mut i = at;
    for _ in 0..k {
        v = v * 256 + u64::from(*s.get(i)?);
        i += 1;
    }
    if v <= most { Some((v, i)) } else { None }
}

// A number, which has k octets in the old form.
fn read_number(s: &[u8], at: usize, form: Form, k: usize, most: u64) -> Option<(u64, usize)>
    requires { k ≤ 8 }
    ensures { result ≡ number_at form k most s.now at }
{
    match form {
        Form::Old => read_octets(s, at, k, most),
        Form::Small | Form::Signed => seven::read(s, at, 10, most),
    }
}

// The grams that a number stands for, without their sign; and whether they are below zero.
fn read_magnitude(form: Form, n: u64) -> u64
    ensures { result ≡ magnitude (grams_by form n) }
{
    match form {
        Form::Old | Form::Small => n,
        Form::Signed => n / 2 + n % 2,
    }
}

fn read_below(form: Form, n: u64) -> bool
    ensures { result ≡ below (grams_by form n) }
{
    matches!(form, Form::Signed) && n % 2 == 1
}

// The entry at a place, and the place after it; none where no entry stands there.
pub fn read_entry(s: &[u8], at: usize, form: Form) -> Option<(Entry, usize)>
    ensures { result ≡ entry_at form s.now at }
{
    let (place, a) = read_number(s, at, form, 4, 4294967295)?;
    let (length, b) = read_number(s, a, form, 4, 4294967295)?;
    let (loads, c) = read_number(s, b, form, 4, 4294967295)?;
    let (n, d) = read_number(s, c, form, 8, 18446744073709551615)?;
    let entry = Entry {
        place,
        length,
        loads,
        grams: read_magnitude(form, n),
        below: read_below(form, n),
    };
    Some((entry, d))
}

// How many entries a stored register has, and where they begin; none where it begins otherwise than the form does.
pub fn read_count(s: &[u8], form: Form) -> Option<(u64, usize)>
    ensures { result ≡ count_at form s.now }
{
    let mark = mark(form);
    if !s.starts_with(mark) {
        return None;
    }
    read_number(s, mark.len(), form, 4, 65535)
}
