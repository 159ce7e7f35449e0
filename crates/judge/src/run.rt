// The judge: the walk from UNB to the end of the octets.
ghost use Rattle.std.specs.Prelude.{◌≡◌, false, ◌≤◌, ◌<◌, ◌*◌, T, length, drop};
ghost use Rattle.syntax.specs.Service.{fit};
ghost use Rattle.syntax.specs.Reader.{chain};
ghost use Rattle.grammar.specs.Interchange.{start};
ghost use Rattle.grammar.specs.Verdict.{verdict_of, numbers, walk};
ghost use Rattle.judge.specs.Told.{verdict_as, walked_as, told_verdict, refused_in};
ghost use Rattle.walk.specs.Runs.{Fresh};

use beginning::begin;
use refusals::refusal;
use syntax::classes::Classes;
use syntax::{Breach, Refusal};
use walk::sections::{next_section, unread};

// Every section from `from` on: UNB, the messages, UNZ; the first bad segment decides. `names` has room for a message in each 8 octets.
fn run(
    s: &[u8],
    from: usize,
    t: &Classes,
    names: &mut [u64],
    slots: &mut [u16],
) -> Result<(), Breach>
    requires fresh { Fresh t.now.syntax s.now names.old slots.old }
    ensures { refused_in s.now result ≡ walked_as s.now (walk t.now.syntax start (chain t.now.syntax.service false (drop from s.now)) from) }
{
    let mut marks = [0usize; 40];
    let mut heads = [0usize; 36];
    let mut rows = [0usize; 18];
    let mut state = unread();
    let mut at = from;
    while let Some(section) = next_section(
        s, at, t, state, &mut marks, &mut heads, names, slots, &mut rows,
    )? {
        state = section.state;
        at = section.next;
    }
    Ok(())
}

// With a table of references and the slots that they are found by: their sizes are known where the code is made, as the library takes no memory of its own.
fn run_within<const NAMES: usize, const SLOTS: usize>(
    s: &[u8],
    from: usize,
    t: &Classes,
) -> Result<(), Breach>
    requires t { T (fit t.now.syntax.service) }
    requires room { (length s.now ≤ 65535) × (length s.now ≤ 4 * NAMES) × (NAMES < SLOTS) × (SLOTS ≤ 65536) }
    ensures { refused_in s.now result ≡ walked_as s.now (walk t.now.syntax start (chain t.now.syntax.service false (drop from s.now)) from) }
{
    let mut names = [0u64; NAMES];
    let mut slots = [0u16; SLOTS];
    run(s, from, t, &mut names, &mut slots)
}

// From UNA or UNB on; the breach stands at its place, and at no segment yet.
fn judged(s: &[u8]) -> Result<(), Breach>
    ensures { refused_in s.now result ≡ verdict_as (verdict_of s.now) }
{
    let start = begin(s)?;
    let t = Classes::of(start.syntax);
    // A small interchange has few messages, and small tables for them: to clear large ones would take longer than to judge it.
    if s.len() <= 256 {
        return run_within::<64, 95>(s, start.at, &t);
    }
    if s.len() <= 2048 {
        return run_within::<512, 763>(s, start.at, &t);
    }
    run_within::<16384, 20405>(s, start.at, &t)
}

// Document 01: "a verdict enum carries a refusal struct": Ok where the interchange is accepted, or Err with the refusal.
pub type Verdict = Result<(), Refusal>;

// The verdict on one interchange in lent octets: any octets of any length.
pub fn judge(s: &[u8]) -> Verdict
    ensures value { result ≡ verdict_as (verdict_of s.now) }
    ensures result_value { told_verdict result ≡ numbers (verdict_of s.now) }
{
    judged(s).map_err(|f| refusal(s, f))
}
