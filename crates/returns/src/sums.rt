// The old sum that a file leaves, or one message in it.
ghost use Rattle.std.specs.Prelude.{◌≡◌, Ok};
ghost use Rattle.grammar.specs.Valid.{Interchange};
ghost use Rattle.grammar.specs.Verdict.{verdict_of, accepted};
ghost use Rattle.kilograms.specs.OldSum.{Old, added_all};
ghost use Rattle.kilograms.specs.Running.{running_as, Held, Runs};
ghost use Rattle.returns.specs.Returns.{file_loads, file_loads_of, message_loads_of, weighed, summed_as, summed_by, old_sum_of, message_old_sum_of, old_sum_bits_of, message_old_sum_bits_of, old_sum_as, told_sum, sum_numbers};
ghost use Rattle.returns.specs.Reading.{Starts};

use crate::loads::add_between;
use beginning::begin;
use groups::calls::{message_named, missing};
use judge::run::judge;
use kilograms::{Tally, bits_of, handed_bits, handed_in, whole};
use refusals::refusal;
use syntax::Refusal;
use syntax::classes::Classes;

// The sum that is left, in whole kilograms, the same in single precision and as its 32 bits; how many loads were added, and their exact kilograms.
#[derive(Clone, Copy)]
pub struct Left {
    pub sum: u64,
    pub single: f32,
    pub bits: u32,
    pub loads: u64,
    pub kilograms: u64,
}

fn left_by(t: Tally) -> Result<Left, Refusal>
    requires { Runs (Ok t) }
    ensures { (o : Old) → Held o → Ok t ≡ running_as o → result ≡ old_sum_as (summed_as o) }
{
    Ok(Left {
        sum: whole(t.sum),
        single: t.sum,
        bits: bits_of(t.sum),
        loads: t.loads,
        kilograms: t.kilograms,
    })
}

fn concluded(k: Result<Tally, u8>) -> Result<Left, Refusal>
    requires { Runs k }
    ensures { (o : Old) → Held o → k ≡ running_as o → result ≡ old_sum_as (summed_as o) }
{
    match k {
        Ok(t) => left_by(t),
        Err(number) => Err(Refusal {
            number,
            place: 0,
            segment: 0,
        }),
    }
}

// The loads of all messages of an interchange that is accepted: no other segment is a load.
fn add_file(s: &[u8], before: Result<Tally, u8>) -> Result<Left, Refusal>
    requires { Starts before }
    ensures { (o : Old) (i : Interchange) → Held o → before ≡ running_as o → verdict_of s.now ≡ accepted i → result ≡ old_sum_as (summed_as (added_all o (weighed (file_loads i)))) }
{
    match begin(s) {
        Err(f) => Err(refusal(s, f)),
        Ok(start) => {
            let t = Classes::of(start.syntax);
            concluded(add_between(s, &t, start.at, s.len(), before))
        }
    }
}

fn sum_file(s: &[u8], before: Result<Tally, u8>) -> Result<Left, Refusal>
    requires { Starts before }
    ensures { (o : Old) → Held o → before ≡ running_as o → result ≡ old_sum_as (summed_by o (file_loads_of s.now)) }
{
    judge(s)?;
    add_file(s, before)
}

fn sum_message(s: &[u8], message: &[u8], before: Result<Tally, u8>) -> Result<Left, Refusal>
    requires { Starts before }
    ensures { (o : Old) → Held o → before ≡ running_as o → result ≡ old_sum_as (summed_by o (message_loads_of s.now message.now)) }
{
    let Some(found) = message_named(s, message)? else {
        return Err(missing());
    };
    let parts = found.layout;
    concluded(add_between(s, &found.classes, parts.body, parts.tail, before))
}

// The sum that the last file left, and with the loads of this one: in single precision.
pub fn old_sum(s: &[u8], before: f32) -> Result<Left, Refusal>
    ensures value { result ≡ old_sum_as (old_sum_of s.now before) }
    ensures result_value { told_sum result ≡ sum_numbers (old_sum_of s.now before) }
{
    sum_file(s, handed_in(before))
}

// The same by its 32 bits.
pub fn old_sum_bits(s: &[u8], before: u32) -> Result<Left, Refusal>
    ensures value { result ≡ old_sum_as (old_sum_bits_of s.now before) }
    ensures result_value { told_sum result ≡ sum_numbers (old_sum_bits_of s.now before) }
{
    sum_file(s, handed_bits(before))
}

// Only the loads of the message with the 0062 `message`.
pub fn message_old_sum(s: &[u8], message: &[u8], before: f32) -> Result<Left, Refusal>
    ensures value { result ≡ old_sum_as (message_old_sum_of s.now message.now before) }
    ensures result_value { told_sum result ≡ sum_numbers (message_old_sum_of s.now message.now before) }
{
    sum_message(s, message, handed_in(before))
}

pub fn message_old_sum_bits(s: &[u8], message: &[u8], before: u32) -> Result<Left, Refusal>
    ensures value { result ≡ old_sum_as (message_old_sum_bits_of s.now message.now before) }
    ensures result_value { told_sum result ≡ sum_numbers (message_old_sum_bits_of s.now message.now before) }
{
    sum_message(s, message, handed_bits(before))
}
