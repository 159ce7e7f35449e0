// Arguments that several commands take together.
use commands::{Bad, Words};

// A header in a message of an interchange.
#[derive(Clone, Copy)]
pub struct Named<'r> {
    pub interchange: &'r [u8],
    pub message: &'r [u8],
    pub header: &'r [u8],
}

impl<'r> Named<'r> {
    pub fn read(words: &mut Words<'_, 'r>) -> Result<Self, Bad> {
        Ok(Named {
            interchange: words.octets()?,
            message: words.octets()?,
            header: words.octets()?,
        })
    }
}

// A header in a message of an AUTACK, and the interchange that it refers to.
#[derive(Clone, Copy)]
pub struct Referring<'r> {
    pub autack: &'r [u8],
    pub referenced: &'r [u8],
    pub message: &'r [u8],
    pub header: &'r [u8],
}

impl<'r> Referring<'r> {
    pub fn read(words: &mut Words<'_, 'r>) -> Result<Self, Bad> {
        let arguments = Referring {
            autack: words.octets()?,
            referenced: words.octets()?,
            message: words.octets()?,
            header: words.octets()?,
        };
        words.end()?;
        Ok(arguments)
    }
}
