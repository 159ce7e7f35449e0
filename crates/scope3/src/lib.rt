// Scope 3, the GS1 subset of AUTACK: the message that an AUTACK seals in the interchange which it refers to.
#![tactic(auto)]

ghost use Rattle.std.specs.Prelude.{ℕ, List, ◌≡◌, ◌+◌, length, Ok};
ghost use Rattle.std.proofs.Math.Option.{none};
ghost use Rattle.std.proofs.Math.Seq.{slice};
ghost use Rattle.grammar.specs.Verdict.{verdict_of};
ghost use Rattle.groups.specs.Calls.{answered_by};
ghost use Rattle.ranges.specs.Told.{run_as, run_numbers, told_run, RunInside, run_part, start_of, end_of};
ghost use Rattle.f01.specs.Referring.{target_from, given_by};
ghost use Rattle.scope3.specs.Scope3.{whole_in, scope3_of};
ghost use Rattle.scope3.specs.Whole.{whole_by};

use beginning::begin;
use f01::{Referred, given, is_referred, reference_named};
use finding::find;
use groups::calls::missing;
use groups::named::Range;
use judge::run::judge;
use ranges::scopes::own_run;
use syntax::classes::Classes;
use syntax::content::part;
use syntax::{Breach, Refusal};
use walk::sections::Layout;

// From the UNH through the UNT, of a message that is no AUTACK.
fn whole_by(c: Layout, referred: bool) -> Option<Range>
    ensures { (s : List ℕ) → given_by s (Ok result) ≡ whole_by c referred }
{
    if !referred || c.autack {
        return None;
    }
    Some(Range {
        start: c.unh,
        end: c.end,
    })
}

// The message of the interchange `s` that is referred to, if the 0020 of `s` is the one that is referred to. Its 0062 is read in `autack`, under the release there.
fn whole_of(s: &[u8], autack: &[u8], x: Referred) -> Result<Option<Range>, Breach>
    ensures value { given_by s.now result ≡ run_as (answered_by (verdict_of s.now) (λ i. whole_in i (target_from autack.now x))) }
    ensures run_inside { RunInside (given_by s.now result) (length s.now) }
{
    let start = begin(s)?;
    let t = Classes::of(start.syntax);
    let mut rows = [0usize; 18];
    let message = part(autack, x.message.start, x.message.end);
    let Some(c) = find(s, start.at, &t, message, x.release, &mut rows)? else {
        return Ok(None);
    };
    Ok(whole_by(c, is_referred(s, start.at, &t, autack, Ok(Some(x)))))
}

// Nothing is referred to: the interchange is refused for itself first.
fn unreferred(s: &[u8]) -> Result<Range, Refusal>
    ensures value { result ≡ run_as (answered_by (verdict_of s.now) (λ i. none)) }
    ensures run_inside { RunInside result (length s.now) }
{
    judge(s)?;
    Err(missing())
}

// Start and end, in `referenced`, of the message that the header `header` of the AUTACK `message` in `autack` seals.
pub fn scope3_places(
    autack: &[u8],
    referenced: &[u8],
    message: &[u8],
    header: &[u8],
) -> Result<Range, Refusal>
    ensures value { result ≡ run_as (scope3_of autack.now referenced.now message.now header.now) }
    ensures result_value { told_run result ≡ run_numbers (scope3_of autack.now referenced.now message.now header.now) }
    ensures run_inside { RunInside result (length referenced.now) }
{
    match reference_named(autack, message, b"3", header)? {
        Some(x) => given(referenced, whole_of(referenced, autack, x)),
        None => unreferred(referenced),
    }
}

// The message itself, a part of the referenced interchange, which is lent beside the AUTACK's and may be the same one. Empty and at 0 where it is refused.
pub fn scope3_run<'a, 'r>(
    autack: &'a [u8],
    referenced: &'r [u8],
    message: &[u8],
    header: &[u8],
) -> &'r [u8]
    ensures result_value { result.now ≡ slice (start_of (run_part (scope3_of autack.now referenced.now message.now header.now))) (end_of (run_part (scope3_of autack.now referenced.now message.now header.now))) referenced.now }
    ensures ref_ptr_value { result.ref_ptr ≡ (referenced.entry.ref_ptr.0, start_of (run_part (scope3_of autack.now referenced.now message.now header.now)) + referenced.entry.ref_ptr.1) }
{
    own_run(
        referenced,
        scope3_places(autack, referenced, message, header),
    )
}
