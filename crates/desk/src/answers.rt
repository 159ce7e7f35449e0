// What the desk answers, as it prints it.
ghost use Rattle.std.specs.Prelude.{Some};
ghost use Rattle.desk.specs.Texts.{answer_text, fault_text, octets_text};
ghost use Rattle.std.specs.Fmt.{WritesOnOk};

use commands::Bad;
use groups::named::Range;
use judge::totals::Loads;
use printing::Hex;
use ranges::scopes::Parts;
use std::fmt;
use syntax::Refusal;

// What stands behind `ok`.
#[derive(Clone, Copy)]
pub enum Answer<'a> {
    Done,
    Totals(Loads),
    Run(Range),
    Parts(Parts),
    Octets(&'a [u8]),
    Digest([u8; 20]),
    Bits([u8; 4]),
}

impl fmt::Display for Answer<'_> {
    ghost output = { λ a. Some (answer_text a) };

    fn fmt<W: fmt::Write>(&self, f: &mut fmt::Formatter<W>) -> fmt::Result {
        match self {
            Answer::Done => Ok(()),
            Answer::Totals(t) => {
                let sign = if t.below { "-" } else { "" };
                write!(f, " {} {sign}{}", t.loads, t.grams)
            }
            Answer::Run(r) => write!(f, " {} {}", r.start, r.end),
            Answer::Parts(p) => write!(
                f,
                " {} {} {} {}",
                p.header.start, p.header.end, p.body.start, p.body.end
            ),
            Answer::Octets(octets) => write_octets(f, octets),
            Answer::Digest(octets) => write_octets(f, octets),
            Answer::Bits(octets) => write_octets(f, octets),
        }
    }
}

// A word has at least an octet.
fn write_octets<W: fmt::Write>(f: &mut fmt::Formatter<W>, octets: &[u8]) -> fmt::Result
    ensures { WritesOnOk W.write_str_gives f.old result (octets_text octets.now) f.new }
{
    if octets.is_empty() {
        return write!(f, " -");
    }
    write!(f, " {}", Hex(octets))
}

// Why a line has no such answer.
#[derive(Clone, Copy)]
pub enum Fault {
    Bad,
    Refused(Refusal),
}

impl From<Bad> for Fault {
    fn from(_bad: Bad) -> Self {
        Fault::Bad
    }
}

impl From<Refusal> for Fault {
    fn from(refusal: Refusal) -> Self {
        Fault::Refused(refusal)
    }
}

impl fmt::Display for Fault {
    ghost output = { λ f. Some (fault_text f) };

    fn fmt<W: fmt::Write>(&self, f: &mut fmt::Formatter<W>) -> fmt::Result {
        match self {
            Fault::Bad => write!(f, "bad"),
            Fault::Refused(r) => write!(f, "refused {} {} {}", r.number, r.place, r.segment),
        }
    }
}
