// What the start of an interchange says: UNA or none, then UNB's first element. Crate `beginning` reads it.
ghost use Rattle.std.specs.Prelude.{◌≡◌};
ghost use Rattle.syntax.specs.Opening.{earlier};

use crate::{Breach, Level, Service, Syntax, Version};

// What is known before UNB. Without UNA the repetition is the one of version 4.
#[derive(Clone, Copy)]
pub struct Opening {
    pub service: Service,
    pub una: bool,
    pub at: usize,
}

// The syntax of the interchange, and the place of UNB.
#[derive(Clone, Copy)]
pub struct Start {
    pub syntax: Syntax,
    pub at: usize,
}

// Whether a version is the earlier edition's.
pub fn is_earlier(v: Version) -> bool
    ensures { result ≡ earlier v }
{
    matches!(v, Version::Two)
}
