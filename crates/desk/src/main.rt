#![tactic(auto)]

// The desk: a command a line on standard input, an answer line to each, in order. A line is words parted by exactly one space:
// the command, then its arguments. Octets are lower-case hex, and `-` is the empty string.
//
//     judge I    ok
//     totals I MREF    ok LOADS GRAMS
//     scope1 I MREF HREF    ok HS HE BS BE: start and end of the header part, and of the body part
//     scope2 I MREF HREF    ok START END
//     f01 A R MREF HREF    ok START END, in R
//     scope3 A R MREF HREF    ok START END, in R
//     value I MREF HREF CAP    ok HEX: the octets written into a buffer of CAP
//     sealoct I MREF REF F CAP    ok HEX
//     seal I MREF REF F VALUE CAP    ok HEX
//     regwrite I FORM CAP    ok HEX. FORM is 1, the old form, or 3, that with signed grams
//     regcheck I FORM REG    ok. FORM is 1, 3, or 2, the smaller form, which is only read
//     regmove FROM TO REG CAP    ok HEX: from each form to 1 and 3, but to itself
//     sha1 PART ..    ok HEX: the digest of the parts, joined
//     digest KIND A R MREF HREF    ok HEX: the digest of a range. KIND is 1, 2, f01 or 3; for 1 and 2 R is not looked at
//     oldsum BITS I    ok BITS: the sum handed in and the sum left, as 8 hex digits of the single precision pattern; of the whole file
//     oldsum BITS I MREF    ok BITS: of one message
//     report I    ok HEX: the text that the program `report` prints, always
//
// Each but the last may answer `refused NUMBER PLACE SEGMENT`. The answer to every other line is `bad`.
mod answers;
mod arguments;
mod digests;
mod line;

use crate::answers::{Answer, Fault};
use crate::arguments::{Named, Referring};
use crate::digests::{digest, sha1};
use crate::line::Line;
use commands::{Bad, Words};
use f01::f01_places;
use forms::Form;
use input::read_once;
use judge::run::judge;
use judge::totals::message_totals;
use listing::text::listing;
use moves::moving::register_move;
use printing::Output;
use ranges::scopes::{scope1_places, scope2_places};
use register::register::{register_check, register_write};
use returns::sums::{message_old_sum_bits, old_sum_bits};
use scope3::scope3_places;
use sealing::seal::{seal, seal_octets};
use std::fmt::Write;
use syntax::content::part;
use values::value;

// So long is the longest buffer that a command is lent. That of a report is longer: it has room for every one.
const MOST: usize = 65536;

fn judged<'a>(words: &mut Words) -> Result<Answer<'a>, Fault> {
    let interchange = words.octets()?;
    words.end()?;
    judge(interchange)?;
    Ok(Answer::Done)
}

fn totals<'a>(words: &mut Words) -> Result<Answer<'a>, Fault> {
    let interchange = words.octets()?;
    let reference = words.octets()?;
    words.end()?;
    Ok(Answer::Totals(message_totals(interchange, reference)?))
}

fn scope1<'a>(words: &mut Words) -> Result<Answer<'a>, Fault> {
    let x = Named::read(words)?;
    words.end()?;
    Ok(Answer::Parts(scope1_places(x.interchange, x.message, x.header)?))
}

fn scope2<'a>(words: &mut Words) -> Result<Answer<'a>, Fault> {
    let x = Named::read(words)?;
    words.end()?;
    Ok(Answer::Run(scope2_places(x.interchange, x.message, x.header)?))
}

fn f01<'a>(words: &mut Words) -> Result<Answer<'a>, Fault> {
    let x = Referring::read(words)?;
    Ok(Answer::Run(f01_places(x.autack, x.referenced, x.message, x.header)?))
}

fn scope3<'a>(words: &mut Words) -> Result<Answer<'a>, Fault> {
    let x = Referring::read(words)?;
    Ok(Answer::Run(scope3_places(x.autack, x.referenced, x.message, x.header)?))
}

fn value_of<'a>(words: &mut Words, written: &'a mut [u8; 131072]) -> Result<Answer<'a>, Fault> {
    let x = Named::read(words)?;
    let most = words.capacity(MOST)?;
    words.end()?;
    let n = value(x.interchange, x.message, x.header, &mut written[..most])?;
    Ok(Answer::Octets(part(written, 0, n)))
}

fn sealed_octets<'a>(
    words: &mut Words,
    written: &'a mut [u8; 131072],
) -> Result<Answer<'a>, Fault> {
    let interchange = words.octets()?;
    let message = words.octets()?;
    let reference = words.octets()?;
    let filter = words.number()?;
    let most = words.capacity(MOST)?;
    words.end()?;
    let n = seal_octets(
        interchange,
        message,
        reference,
        filter,
        &mut written[..most],
    )?;
    Ok(Answer::Octets(part(written, 0, n)))
}

fn sealed<'a>(words: &mut Words, written: &'a mut [u8; 131072]) -> Result<Answer<'a>, Fault> {
    let interchange = words.octets()?;
    let message = words.octets()?;
    let reference = words.octets()?;
    let filter = words.number()?;
    let value = words.octets()?;
    let most = words.capacity(MOST)?;
    words.end()?;
    let n = seal(
        interchange,
        message,
        reference,
        filter,
        value,
        &mut written[..most],
    )?;
    Ok(Answer::Octets(part(written, 0, n)))
}

// A form by its number.
fn form_named(n: u64) -> Result<Form, Bad> {
    match n {
        1 => Ok(Form::Old),
        2 => Ok(Form::Small),
        3 => Ok(Form::Signed),
        _ => Err(Bad),
    }
}

// A form that is written: form 2 is only read.
fn written_form(n: u64) -> Result<Form, Bad> {
    match n {
        2 => Err(Bad),
        n => form_named(n),
    }
}

fn register_written<'a>(
    words: &mut Words,
    written: &'a mut [u8; 131072],
) -> Result<Answer<'a>, Fault> {
    let interchange = words.octets()?;
    let form = written_form(words.number()?)?;
    let most = words.capacity(MOST)?;
    words.end()?;
    let n = register_write(interchange, form, &mut written[..most])?;
    Ok(Answer::Octets(part(written, 0, n)))
}

fn register_checked<'a>(words: &mut Words) -> Result<Answer<'a>, Fault> {
    let interchange = words.octets()?;
    let form = form_named(words.number()?)?;
    let register = words.octets()?;
    words.end()?;
    register_check(interchange, form, register)?;
    Ok(Answer::Done)
}

// No register is moved to the form that it has.
fn register_moved<'a>(
    words: &mut Words,
    written: &'a mut [u8; 131072],
) -> Result<Answer<'a>, Fault> {
    let from = words.number()?;
    let to = words.number()?;
    let stored = words.octets()?;
    let most = words.capacity(MOST)?;
    words.end()?;
    if from == to {
        return Err(Fault::Bad);
    }
    let n = register_move(
        stored,
        form_named(from)?,
        written_form(to)?,
        &mut written[..most],
    )?;
    Ok(Answer::Octets(part(written, 0, n)))
}

// Four octets as a number, the first one highest.
fn bits_given(octets: &[u8]) -> Result<u32, Bad> {
    match octets {
        [a, b, c, d] => Ok(u32::from_be_bytes([*a, *b, *c, *d])),
        _ => Err(Bad),
    }
}

// Of one message, where a third argument names it; else of the whole file.
fn old_sum<'a>(words: &mut Words) -> Result<Answer<'a>, Fault> {
    let bits = words.octets()?;
    let interchange = words.octets()?;
    if words.is_over() {
        let left = old_sum_bits(interchange, bits_given(bits)?)?;
        return Ok(Answer::Bits(left.bits.to_be_bytes()));
    }
    let message = words.octets()?;
    words.end()?;
    let left = message_old_sum_bits(interchange, message, bits_given(bits)?)?;
    Ok(Answer::Bits(left.bits.to_be_bytes()))
}

// The buffer has room for every report.
fn report<'a>(words: &mut Words, written: &'a mut [u8; 131072]) -> Result<Answer<'a>, Fault> {
    let interchange = words.octets()?;
    words.end()?;
    let n = listing(interchange, &mut *written)?;
    Ok(Answer::Octets(part(written, 0, n)))
}

fn answer<'a>(
    line: &Line,
    room: &mut [u8],
    written: &'a mut [u8; 131072],
) -> Result<Answer<'a>, Fault> {
    let mut words = Words::new(line.octets().ok_or(Bad)?, room);
    match words.word()? {
        b"judge" => judged(&mut words),
        b"totals" => totals(&mut words),
        b"scope1" => scope1(&mut words),
        b"scope2" => scope2(&mut words),
        b"f01" => f01(&mut words),
        b"scope3" => scope3(&mut words),
        b"value" => value_of(&mut words, written),
        b"sealoct" => sealed_octets(&mut words, written),
        b"seal" => sealed(&mut words, written),
        b"regwrite" => register_written(&mut words, written),
        b"regcheck" => register_checked(&mut words),
        b"regmove" => register_moved(&mut words, written),
        b"sha1" => sha1(&mut words),
        b"digest" => digest(&mut words),
        b"oldsum" => old_sum(&mut words),
        b"report" => report(&mut words, written),
        _ => Err(Fault::Bad),
    }
}

// What the desk keeps: the line that has begun, and room for the octets of its arguments and for what a call writes.
#[derive(Drop)]
struct Desk {
    line: Line,
    room: [u8; 150000],
    written: [u8; 131072],
}

impl Desk {
    // Answers the line, and begins the next.
    fn answer_line(&mut self, out: &mut Output<impl Print>) {
        let _ = match answer(&self.line, &mut self.room, &mut self.written) {
            Ok(answer) => writeln!(out, "ok{answer}"),
            Err(fault) => writeln!(out, "{fault}"),
        };
        self.line.clear();
    }

    // Answers each line that ends in `chunk`, and keeps the start of the next. Nothing printed waits for the next read.
    fn feed(&mut self, out: &mut Output<impl Print>, chunk: &[u8]) {
        let mut rest = chunk;
        while let Some(end) = rest.iter().position(|b| *b == b'\n') {
            // An empty line has nothing to keep.
            if 0 < end {
                self.line.push(&rest[..end]);
            }
            self.answer_line(out);
            rest = &rest[end + 1..];
        }
        self.line.push(rest);
        out.flush();
    }

    // Answers the last line, where no line feed ended it. Where nothing came after the last line feed there is no such line.
    fn finish(&mut self, out: &mut Output<impl Print>) {
        if !self.line.is_empty() {
            self.answer_line(out);
        }
    }
}

// One read at a time, of what has come: a read that waits for a full buffer would hold answers back. A read that fails ends the
// input. A proved loop has to end, and nothing says that the input does: so the loop has more turns than any run uses up.
fn main(rt: HostRuntime) {
    let mut out = Output::new(&rt);
    let mut desk = Desk {
        line: Line::new(),
        room: [0; 150000],
        written: [0; 131072],
    };
    let mut chunk = [0u8; 4096];
    for _ in 0..u64::MAX {
        let n = read_once(&mut rt.reader(), &mut chunk);
        if n == 0 {
            break;
        }
        desk.feed(&mut out, &chunk[..n]);
    }
    desk.finish(&mut out);
    out.end();
}
