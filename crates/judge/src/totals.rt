// The loads of a message, and their grams: so many, and whether below zero.
ghost use Rattle.std.specs.Prelude.{◌≡◌};
ghost use Rattle.grammar.specs.Verdict.{totals_of, total_numbers, total_grams};
ghost use Rattle.judge.specs.Totals.{totals_as, told_totals, told_grams, totalled_by, Light};

use beginning::begin;
use finding::find;
use refusals::refusal;
use syntax::classes::Classes;
use syntax::{Breach, Refusal};
use walk::sections::Layout;

#[derive(Clone, Copy)]
pub struct Loads {
    pub loads: usize,
    pub grams: u64,
    pub below: bool,
}

fn totalled(s: &[u8], f: Result<Option<Layout>, Breach>) -> Result<Loads, Refusal>
    ensures { result ≡ totalled_by s.now f }
{
    match f {
        Ok(Some(c)) => Ok(Loads {
            loads: c.loads,
            grams: c.grams,
            below: c.below,
        }),
        Ok(None) => Err(Refusal {
            number: 13,
            place: 0,
            segment: 0,
        }),
        Err(g) => Err(refusal(s, g)),
    }
}

// None: the interchange has no message of that 0062.
fn sought(s: &[u8], reference: &[u8]) -> Result<Option<Layout>, Breach>
    ensures value { totalled_by s.now result ≡ totals_as (totals_of s.now reference.now) }
    ensures light { Light (totalled_by s.now result) }
{
    let start = begin(s)?;
    let t = Classes::of(start.syntax);
    let mut rows = [0usize; 18];
    find(s, start.at, &t, reference, 32, &mut rows)
}

// How many loads the message with the 0062 `reference` has, and their grams: for any octets, and any reference.
pub fn message_totals(s: &[u8], reference: &[u8]) -> Result<Loads, Refusal>
    ensures value { result ≡ totals_as (totals_of s.now reference.now) }
    ensures result_value { told_totals result ≡ total_numbers (totals_of s.now reference.now) }
    ensures result_value_2 { told_grams result ≡ total_grams (totals_of s.now reference.now) }
    ensures light { Light result }
{
    totalled(s, sought(s, reference))
}
