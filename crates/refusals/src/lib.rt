// A breach that was found in an interchange, as a call gives it back.
#![tactic(auto)]

pub mod ordinal;

ghost use Rattle.std.specs.Prelude.{◌≡◌};
ghost use Rattle.syntax.specs.Refusals.{refusal_at};

use crate::ordinal::ordinal;
use syntax::{Breach, Refusal};

// The one place where a breach leaves the walk.
pub fn refusal(s: &[u8], b: Breach) -> Refusal
    ensures { result ≡ refusal_at s.now b.number b.place }
{
    Refusal {
        number: b.number,
        place: b.place,
        segment: ordinal(s, b.place),
    }
}
