// The commands on digests.
use crate::answers::{Answer, Fault};
use crate::arguments::Referring;
use commands::Words;
use digest::{digest_f01, digest_scope1, digest_scope2, digest_scope3};
use syntax::Refusal;

// `sha1 PART ..`: each part is fed as its word is read.
pub fn sha1<'a>(words: &mut Words) -> Result<Answer<'a>, Fault> {
    let mut state = sha::start();
    while !words.is_over() {
        let Some(fed) = sha::feed(state, words.octets()?) else {
            return Err(Fault::Refused(Refusal {
                number: 15,
                place: 0,
                segment: 0,
            }));
        };
        state = fed;
    }
    Ok(Answer::Digest(sha::finish(state)))
}

// `digest KIND A R MREF HREF`: for the kinds 1 and 2 R is not looked at.
pub fn digest<'a>(words: &mut Words) -> Result<Answer<'a>, Fault> {
    let kind = words.word()?;
    let x = Referring::read(words)?;
    let octets = match kind {
        b"1" => digest_scope1(x.autack, x.message, x.header)?,
        b"2" => digest_scope2(x.autack, x.message, x.header)?,
        b"f01" => digest_f01(x.autack, x.referenced, x.message, x.header)?,
        b"3" => digest_scope3(x.autack, x.referenced, x.message, x.header)?,
        _ => return Err(Fault::Bad),
    };
    Ok(Answer::Digest(octets))
}
