// The message that a call names: the interchange is begun, judged, and the message found.
ghost use Rattle.std.specs.Prelude.{◌≡◌};
ghost use Rattle.syntax.specs.Content.{content};
ghost use Rattle.syntax.specs.Refusals.{at_zero};
ghost use Rattle.groups.specs.Calls.{NamedIs};

use beginning::begin;
use finding::find;
use refusals::refusal;
use syntax::Refusal;
use syntax::classes::Classes;
use walk::sections::Layout;

// A message that was found: the classes of the octets of its interchange, where its parts stand, and where its groups start.
#[derive(Clone, Copy)]
pub struct Opened {
    pub classes: Classes,
    pub layout: Layout,
    pub rows: [usize; 18],
}

// No such message, header or F01 run.
pub fn missing() -> Refusal
    ensures { result ≡ at_zero 13 }
{
    Refusal {
        number: 13,
        place: 0,
        segment: 0,
    }
}

// The message whose 0062 has the content of `message` under the release `other`, for any octets; None: the interchange has none of that 0062.
pub fn message_like(s: &[u8], message: &[u8], other: u8) -> Result<Option<Opened>, Refusal>
    ensures { NamedIs s.now (content other message.now) result }
{
    match begin(s) {
        Err(f) => Err(refusal(s, f)),
        Ok(start) => {
            let classes = Classes::of(start.syntax);
            let mut rows = [0usize; 18];
            match find(s, start.at, &classes, message, other, &mut rows) {
                Err(f) => Err(refusal(s, f)),
                Ok(None) => Ok(None),
                Ok(Some(layout)) => Ok(Some(Opened {
                    classes,
                    layout,
                    rows,
                })),
            }
        }
    }
}

// The message with the 0062 `message`, which is content already: no octet of it is a release.
pub fn message_named(s: &[u8], message: &[u8]) -> Result<Option<Opened>, Refusal>
    ensures { NamedIs s.now message.now result }
{
    message_like(s, message, 32)
}
