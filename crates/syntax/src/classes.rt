// The class table of a syntax, made once for each interchange.
ghost use Rattle.std.specs.Prelude.{◌≡◌};
ghost use Rattle.syntax.specs.Classes.{class_of, Table};

use crate::Syntax;
use crate::repertoire::{OUTSIDE, classes};

// A syntax, and the class of each octet under it. Its fields are public, so that who filled a table by `classes` makes the value of it.
#[derive(Clone, Copy)]
pub struct Classes {
    pub octets: [u8; 256],
    pub syntax: Syntax,
    pub ghost table: { Table syntax octets },
}

impl Classes {
    // Every call that reads segments begins with it.
    pub fn of(syntax: Syntax) -> Classes
        ensures { result.syntax ≡ syntax }
    {
        let mut octets = [OUTSIDE; 256];
        classes(&mut octets, syntax);
        Classes { octets, syntax }
    }

    pub fn class(&self, b: u8) -> u8
        ensures { result ≡ class_of self.now.syntax b }
    {
        self.octets[usize::from(b)]
    }
}
