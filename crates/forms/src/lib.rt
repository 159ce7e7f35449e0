// The forms of a register: what it is made of, and how its count and entries are laid into a buffer in each form.
#![tactic(auto)]

ghost use Rattle.std.specs.Prelude.{false, ◌||◌, ◌≡◌, ◌+◌, ◌≤◌, ◌<◌};
ghost use Rattle.grammar.specs.Grams.{below};
ghost use Rattle.writing.specs.Laid.{Laid};
ghost use Rattle.forms.specs.declared.Form.TheVariants.{Signed};
ghost use Rattle.forms.specs.Forms.{highest, number_text, grams_of, doubled, grams_number, entry_text, mark, count_text, large, sign_lost};

use writing::put;

// `Old`: "message count as 4 octets, then per message 20". `Small`: the smaller register, which "begins with the octet 2". `Signed`: that "with signed
// grams", which "begins with the octet 3".
#[derive(Clone, Copy)]
pub enum Form {
    Old,
    Small,
    Signed,
}

// A message: the place of its UNH, its length to the end of UNT, its loads, their grams without their sign, and whether they are below zero.
// Kept: the sign stands beside the grams, since the theorems on registers (`Fit`, `grams_of`) name both fields, and unsigned grams go past every i64.
#[derive(Clone, Copy)]
pub struct Entry {
    pub place: u64,
    pub length: u64,
    pub loads: u64,
    pub grams: u64,
    pub below: bool,
}

// Whether its grams are below zero; minus zero is zero.
pub fn below_zero(e: Entry) -> bool
    ensures { result ≡ below (grams_of e) }
{
    e.below && 0 < e.grams
}

// Whether those of an earlier entry are, or those of this one.
pub fn or_below(earlier: bool, e: Entry) -> bool
    ensures { result ≡ (earlier || below (grams_of e)) }
{
    earlier || below_zero(e)
}

fn over_half(e: Entry) -> bool
    ensures { result ≡ large Signed (grams_of e) }
{
    if below_zero(e) {
        9223372036854775808 < e.grams
    } else {
        9223372036854775808 <= e.grams
    }
}

// Whether the form has no place for grams so large.
pub fn too_large(form: Form, e: Entry) -> bool
    ensures { result ≡ large form (grams_of e) }
{
    matches!(form, Form::Signed) && over_half(e)
}

// Whether the form has no place for a minus, and there is one.
pub fn sign_lost(form: Form, any: bool) -> bool
    ensures { result ≡ sign_lost form any }
{
    any && !matches!(form, Form::Signed)
}

fn twice(e: Entry) -> u64
    requires { large Signed (grams_of e) ≡ false }
    ensures { result ≡ doubled (grams_of e) }
{
    if below_zero(e) {
        (e.grams - 1) * 2 + 1
    } else {
        e.grams * 2
    }
}

// The number that stands for the grams.
fn grams_number(form: Form, e: Entry) -> u64
    requires { large form (grams_of e) ≡ false }
    ensures { result ≡ grams_number form (grams_of e) }
{
    match form {
        Form::Old | Form::Small => e.grams,
        Form::Signed => twice(e),
    }
}

// A number in k octets, highest first.
fn put_octets(out: &mut [u8], at: usize, k: usize, n: u64) -> usize
    requires { (at + 8 < 18446744073709551616) × (k ≤ 8) }
    ensures { Laid out.old at (highest k n) result out.new }
{
    put(out, at, &n.to_be_bytes()[8 - k..])
}

// A number, which has k octets in the old form.
fn put_number(out: &mut [u8], at: usize, form: Form, k: usize, n: u64) -> usize
    requires { (at + 10 < 18446744073709551616) × (k ≤ 8) }
    ensures laid { Laid out.old at (number_text form k n) result out.new }
    ensures upper_bound { result ≤ at + 10 }
{
    match form {
        Form::Old => put_octets(out, at, k, n),
        Form::Small | Form::Signed => seven::write(out, at, n),
    }
}

pub fn put_entry(out: &mut [u8], at: usize, form: Form, e: Entry) -> usize
    requires { (at + 40 < 18446744073709551616) × (large form (grams_of e) ≡ false) }
    ensures laid { Laid out.old at (entry_text form e) result out.new }
    ensures upper_bound { result ≤ at + 40 }
{
    let n = grams_number(form, e);
    let a = put_number(&mut *out, at, form, 4, e.place);
    let b = put_number(&mut *out, a, form, 4, e.length);
    let c = put_number(&mut *out, b, form, 4, e.loads);
    put_number(&mut *out, c, form, 8, n)
}

// What a register in the form begins with.
pub fn mark(form: Form) -> &'static [u8]
    ensures { result.now ≡ mark form }
{
    match form {
        Form::Old => &[],
        Form::Small => &[2],
        Form::Signed => &[3],
    }
}

// The count, which comes first, behind the form's mark.
pub fn put_count(out: &mut [u8], form: Form, n: u64) -> usize
    ensures laid { Laid out.old 0 (count_text form n) result out.new }
    ensures upper_bound { result ≤ 11 }
{
    let a = put(&mut *out, 0, mark(form));
    put_number(&mut *out, a, form, 4, n)
}
