// The value of a text under the filter that a 0505 names.
ghost use Rattle.syntax.specs.Content.{content};
ghost use Rattle.writing.specs.Written.{Writes};
ghost use Rattle.filters.specs.Decoding.{Decodes};
ghost use Rattle.values.specs.Filters.{other_value, value_by, or_bad};

use edc::edc_into;
use filters::hex::hex_into;
use filters::pieces::is_over;
use filters::six::six_into;
use syntax::content::content_is;
use syntax::opening::is_earlier;
use syntax::{Refusal, Version};
use writing::{refused, too_long};

// The filter that an edition has beside hex: EDC in the earlier one, else base 64.
fn other_into(
    out: &mut [u8],
    version: Version,
    text: &[u8],
    code: &[u8],
    release: u8,
) -> Option<usize>
    ensures { Decodes (other_value version (content release code.now) (content release text.now)) out.old 0 result out.new }
{
    if is_earlier(version) {
        if content_is(code, release, b"6") {
            return edc_into(&mut *out, text, release);
        }
        return None;
    }
    if content_is(code, release, b"7") {
        return six_into(&mut *out, text, release);
    }
    None
}

fn value_into(
    out: &mut [u8],
    version: Version,
    text: &[u8],
    code: &[u8],
    release: u8,
) -> Option<usize>
    ensures { Decodes (value_by version (content release code.now) (content release text.now)) out.old 0 result out.new }
{
    if is_over(text, 0, release) {
        return None;
    }
    if content_is(code, release, b"2") {
        return hex_into(&mut *out, text, release);
    }
    other_into(&mut *out, version, text, code, release)
}

// The octets that `text` stands for by the 0505 `code`, both as they stand in the interchange. Read once into no room, so
// that nothing is written where the call refuses.
pub fn value_of(
    version: Version,
    text: &[u8],
    code: &[u8],
    release: u8,
    out: &mut [u8],
) -> Result<usize, Refusal>
    ensures { Writes (or_bad (value_by version (content release code.now) (content release text.now))) out.old result out.new }
{
    let mut none = [0u8; 1];
    let Some(m) = value_into(&mut none, version, text, code, release) else {
        return refused(14);
    };
    if too_long(out.len(), m) {
        return refused(15);
    }
    value_into(&mut *out, version, text, code, release);
    Ok(m)
}
