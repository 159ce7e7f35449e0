// The exported interface, for C and Rust: include/gurandepi.h says it in C, rust/src/calls.rs in Rust, by the same names, which
// c/interface compares. Each call takes slices, a pointer and a length in C, and gives a struct of numbers: the number of
// the refusal, 0 for none, its place, the ordinal of the segment there, then the call's own. Any octets of any length are allowed everywhere; no call keeps
// anything. A library gives C no symbols: crates/gurandepi_c, a static library over this one, does.
#![tactic(auto)]

ghost use Rattle.std.specs.Prelude.{◌≡◌, ◌∷◌, ◌<◌};
ghost use Rattle.grammar.specs.Grams.{signed};
ghost use Rattle.grammar.specs.Verdict.{verdict_of, numbers, totals_of, total_numbers, total_grams};
ghost use Rattle.judge.specs.Told.{told_verdict};
ghost use Rattle.judge.specs.Totals.{told_totals, told_grams, Light};
ghost use Rattle.ranges.specs.Ranges.{scope1_of, scope2_of};
ghost use Rattle.f01.specs.F01.{f01_of};
ghost use Rattle.scope3.specs.Scope3.{scope3_of};
ghost use Rattle.ranges.specs.Told.{part_numbers, told_parts, run_numbers, told_run};
ghost use Rattle.writing.specs.Written.{told_written};
ghost use Rattle.values.specs.Values.{value_of};
ghost use Rattle.sealing.specs.Sealing.{seal_octets_of, seal_of};
ghost use Rattle.register.specs.Register.{register_of, check_numbers, told_check};
ghost use Rattle.forms.specs.declared.Form.TheVariants.{Old, Small, Signed};
ghost use Rattle.moves.specs.Stored.{move_of};
ghost use Rattle.sha.specs.Feeding.{started, finished_of};
ghost use Rattle.digest.specs.Digests.{digest1_of, digest2_of, digest_f01_of, digest3_of, digest_numbers, told_digest};
ghost use Rattle.returns.specs.Returns.{old_sum_of, old_sum_bits_of, message_old_sum_of, message_old_sum_bits_of, told_sum, single_in, single_of, sum_numbers};
ghost use Rattle.gurandepi.specs.Answers.{old_sum_fields, answer_fields, totals_fields, parts_fields, range_fields, Gives, written_fields, digest_fields, state_in, Feeds};

use digest::{digest_f01, digest_scope1, digest_scope2, digest_scope3};
use f01::f01_places;
use forms::Form;
use groups::named;
use judge::run::judge;
use judge::totals;
use judge::totals::message_totals;
use moves::moving::register_move;
use ranges::scopes;
use ranges::scopes::{scope1_places, scope2_places};
use register::register::{register_check, register_write};
use returns::sums;
use returns::sums::{message_old_sum, message_old_sum_bits, old_sum, old_sum_bits};
use scope3::scope3_places;
use sealing::seal::{seal, seal_octets};
use syntax::Refusal;
use values::value;

#[repr(C)]
#[derive(Clone, Copy)]
pub struct Answer {
    pub number: u64,
    pub place: u64,
    pub segment: u64,
}

#[repr(C)]
#[derive(Clone, Copy)]
pub struct Loads {
    pub number: u64,
    pub place: u64,
    pub segment: u64,
    pub loads: u64,
    pub grams: i64,
}

#[repr(C)]
#[derive(Clone, Copy)]
pub struct Parts {
    pub number: u64,
    pub place: u64,
    pub segment: u64,
    pub header_start: u64,
    pub header_end: u64,
    pub body_start: u64,
    pub body_end: u64,
}

#[repr(C)]
#[derive(Clone, Copy)]
pub struct Range {
    pub number: u64,
    pub place: u64,
    pub segment: u64,
    pub start: u64,
    pub end: u64,
}

// How many octets stand at the front of the lent buffer.
#[repr(C)]
#[derive(Clone, Copy)]
pub struct Written {
    pub number: u64,
    pub place: u64,
    pub segment: u64,
    pub length: u64,
}

// The old sum that is left: in whole kilograms, as its 32 bits and in single precision; how many loads were added, and their exact kilograms.
#[repr(C)]
#[derive(Clone, Copy)]
pub struct OldSum {
    pub number: u64,
    pub place: u64,
    pub segment: u64,
    pub sum: u64,
    pub bits: u32,
    pub single: f32,
    pub loads: u64,
    pub kilograms: u64,
}

// What the library's calls answer, as the numbers that C is given.
impl From<Result<(), Refusal>> for Answer {
    ghost from_gives = { λ r a. answer_fields a ≡ told_verdict r };

    fn from(r: Result<(), Refusal>) -> Answer {
        match r {
            Ok(()) => Answer {
                number: 0,
                place: 0,
                segment: 0,
            },
            Err(f) => Answer {
                number: f.number as u64,
                place: f.place as u64,
                segment: f.segment as u64,
            },
        }
    }
}

// So many grams, behind a minus or not.
fn signed_grams(grams: u64, below: bool) -> i64
    requires { grams < 9223372036854775808 }
    ensures { result ≡ signed below grams }
{
    let z = grams as i64;
    if below {
        return -z;
    }
    z
}

// Kept: no From, since a sum of grams fits in 63 bits only as `Light` says, and `From` asks for nothing.
fn totals_answer(t: Result<totals::Loads, Refusal>) -> Loads
    requires { Light t }
    ensures result_value { totals_fields result ≡ told_totals t }
    ensures grams_value { result.grams ≡ told_grams t }
{
    match t {
        Ok(x) => {
            let grams = signed_grams(x.grams, x.below);
            Loads {
                number: 0,
                place: 0,
                segment: 0,
                loads: x.loads as u64,
                grams,
            }
        }
        Err(f) => Loads {
            number: f.number as u64,
            place: f.place as u64,
            segment: f.segment as u64,
            loads: 0,
            grams: 0,
        },
    }
}

impl From<Result<scopes::Parts, Refusal>> for Parts {
    ghost from_gives = { λ r a. parts_fields a ≡ told_parts r };

    fn from(r: Result<scopes::Parts, Refusal>) -> Parts {
        match r {
            Ok(x) => Parts {
                number: 0,
                place: 0,
                segment: 0,
                header_start: x.header.start as u64,
                header_end: x.header.end as u64,
                body_start: x.body.start as u64,
                body_end: x.body.end as u64,
            },
            Err(f) => Parts {
                number: f.number as u64,
                place: f.place as u64,
                segment: f.segment as u64,
                header_start: 0,
                header_end: 0,
                body_start: 0,
                body_end: 0,
            },
        }
    }
}

impl From<Result<named::Range, Refusal>> for Range {
    ghost from_gives = { λ r a. range_fields a ≡ told_run r };

    fn from(r: Result<named::Range, Refusal>) -> Range {
        match r {
            Ok(x) => Range {
                number: 0,
                place: 0,
                segment: 0,
                start: x.start as u64,
                end: x.end as u64,
            },
            Err(f) => Range {
                number: f.number as u64,
                place: f.place as u64,
                segment: f.segment as u64,
                start: 0,
                end: 0,
            },
        }
    }
}

impl From<Result<usize, Refusal>> for Written {
    ghost from_gives = { λ r a. written_fields a ≡ told_written r };

    fn from(r: Result<usize, Refusal>) -> Written {
        match r {
            Ok(n) => Written {
                number: 0,
                place: 0,
                segment: 0,
                length: n as u64,
            },
            Err(f) => Written {
                number: f.number as u64,
                place: f.place as u64,
                segment: f.segment as u64,
                length: 0,
            },
        }
    }
}

// The verdict on an interchange.
#[unsafe(no_mangle)]
pub extern "C" fn gurandepi_judge(interchange: &[u8]) -> Answer
    ensures { answer_fields result ≡ numbers (verdict_of interchange.now) }
{
    judge(interchange).into()
}

// The loads of a message, named by its 0062, and their grams.
#[unsafe(no_mangle)]
pub extern "C" fn gurandepi_totals(interchange: &[u8], message: &[u8]) -> Loads
    ensures result_value { totals_fields result ≡ total_numbers (totals_of interchange.now message.now) }
    ensures grams_value { result.grams ≡ total_grams (totals_of interchange.now message.now) }
{
    totals_answer(message_totals(interchange, message))
}

// Scope 1 of a header, named by its 0534: where its header part and the body part start and end.
#[unsafe(no_mangle)]
pub extern "C" fn gurandepi_scope1(interchange: &[u8], message: &[u8], header: &[u8]) -> Parts
    ensures { parts_fields result ≡ part_numbers (scope1_of interchange.now message.now header.now) }
{
    scope1_places(interchange, message, header).into()
}

// Scope 2: where its run starts and ends.
#[unsafe(no_mangle)]
pub extern "C" fn gurandepi_scope2(interchange: &[u8], message: &[u8], header: &[u8]) -> Range
    ensures { range_fields result ≡ run_numbers (scope2_of interchange.now message.now header.now) }
{
    scope2_places(interchange, message, header).into()
}

// F01: where its run starts and ends in the referenced interchange. `message` is the AUTACK's 0062.
#[unsafe(no_mangle)]
pub extern "C" fn gurandepi_f01(
    autack: &[u8],
    referenced: &[u8],
    message: &[u8],
    header: &[u8],
) -> Range
    ensures { range_fields result ≡ run_numbers (f01_of autack.now referenced.now message.now header.now) }
{
    f01_places(autack, referenced, message, header).into()
}

// Scope 3, of the GS1 subset: where the message starts and ends, in the referenced interchange, that the AUTACK names. `message` is the AUTACK's 0062.
#[unsafe(no_mangle)]
pub extern "C" fn gurandepi_scope3(
    autack: &[u8],
    referenced: &[u8],
    message: &[u8],
    header: &[u8],
) -> Range
    ensures { range_fields result ≡ run_numbers (scope3_of autack.now referenced.now message.now header.now) }
{
    scope3_places(autack, referenced, message, header).into()
}

// The value that a header's seal carries, into `out`.
#[unsafe(no_mangle)]
pub extern "C" fn gurandepi_value(
    interchange: &[u8],
    message: &[u8],
    header: &[u8],
    out: &mut [u8],
) -> Written
    ensures { Gives (value_of interchange.now message.now header.now) out.old result out.new }
{
    value(interchange, message, header, out).into()
}

// The octets to be signed when the message is sealed under `reference`, with the filter 2 or 7, into `out`.
#[unsafe(no_mangle)]
pub extern "C" fn gurandepi_seal_octets(
    interchange: &[u8],
    message: &[u8],
    reference: &[u8],
    filter: u64,
    out: &mut [u8],
) -> Written
    ensures { Gives (seal_octets_of interchange.now message.now reference.now filter) out.old result out.new }
{
    seal_octets(interchange, message, reference, filter, out).into()
}

// The sealed interchange, into `out`. `value` is the signature, as octets.
#[unsafe(no_mangle)]
pub extern "C" fn gurandepi_seal(
    interchange: &[u8],
    message: &[u8],
    reference: &[u8],
    filter: u64,
    value: &[u8],
    out: &mut [u8],
) -> Written
    ensures { Gives (seal_of interchange.now message.now reference.now filter value.now) out.old result out.new }
{
    seal(interchange, message, reference, filter, value, out).into()
}

// The register of an interchange in the old form, into `out`. Each form has calls of its own: a form by a number could be none.
#[unsafe(no_mangle)]
pub extern "C" fn gurandepi_register_write(interchange: &[u8], out: &mut [u8]) -> Written
    ensures { Gives (register_of Old interchange.now) out.old result out.new }
{
    register_write(interchange, Form::Old, out).into()
}

// The same in the form with signed grams.
#[unsafe(no_mangle)]
pub extern "C" fn gurandepi_register_write_signed(interchange: &[u8], out: &mut [u8]) -> Written
    ensures { Gives (register_of Signed interchange.now) out.old result out.new }
{
    register_write(interchange, Form::Signed, out).into()
}

// Whether `kept` is the register of the interchange in the old form.
#[unsafe(no_mangle)]
pub extern "C" fn gurandepi_register_check(interchange: &[u8], kept: &[u8]) -> Answer
    ensures { answer_fields result ≡ check_numbers Old interchange.now kept.now }
{
    register_check(interchange, Form::Old, kept).into()
}

// The same in the smaller form, which is only read.
#[unsafe(no_mangle)]
pub extern "C" fn gurandepi_register_check_small(interchange: &[u8], kept: &[u8]) -> Answer
    ensures { answer_fields result ≡ check_numbers Small interchange.now kept.now }
{
    register_check(interchange, Form::Small, kept).into()
}

// The same in the form with signed grams.
#[unsafe(no_mangle)]
pub extern "C" fn gurandepi_register_check_signed(interchange: &[u8], kept: &[u8]) -> Answer
    ensures { answer_fields result ≡ check_numbers Signed interchange.now kept.now }
{
    register_check(interchange, Form::Signed, kept).into()
}

// A stored register of the old form in that with signed grams, into `out`.
#[unsafe(no_mangle)]
pub extern "C" fn gurandepi_register_old_to_signed(stored: &[u8], out: &mut [u8]) -> Written
    ensures { Gives (move_of Old Signed stored.now) out.old result out.new }
{
    register_move(stored, Form::Old, Form::Signed, out).into()
}

// And back.
#[unsafe(no_mangle)]
pub extern "C" fn gurandepi_register_signed_to_old(stored: &[u8], out: &mut [u8]) -> Written
    ensures { Gives (move_of Signed Old stored.now) out.old result out.new }
{
    register_move(stored, Form::Signed, Form::Old, out).into()
}

// One of the smaller form in either.
#[unsafe(no_mangle)]
pub extern "C" fn gurandepi_register_small_to_signed(stored: &[u8], out: &mut [u8]) -> Written
    ensures { Gives (move_of Small Signed stored.now) out.old result out.new }
{
    register_move(stored, Form::Small, Form::Signed, out).into()
}

#[unsafe(no_mangle)]
pub extern "C" fn gurandepi_register_small_to_old(stored: &[u8], out: &mut [u8]) -> Written
    ensures { Gives (move_of Small Old stored.now) out.old result out.new }
{
    register_move(stored, Form::Small, Form::Old, out).into()
}

// A message under way, for its digest.
#[repr(C)]
#[derive(Clone, Copy)]
pub struct Sha1 {
    pub a: u32,
    pub b: u32,
    pub c: u32,
    pub d: u32,
    pub e: u32,
    pub buffer: [u8; 64],
    pub count: u64,
}

// A state that was fed; or 15, and the state as it was.
#[repr(C)]
#[derive(Clone, Copy)]
pub struct Fed {
    pub number: u64,
    pub place: u64,
    pub segment: u64,
    pub state: Sha1,
}

// The twenty octets of a digest.
#[repr(C)]
#[derive(Clone, Copy)]
pub struct Digest {
    pub number: u64,
    pub place: u64,
    pub segment: u64,
    pub octets: [u8; 20],
}

impl From<Sha1> for sha::Sha {
    ghost from_gives = { λ s r. r ≡ state_in s };

    fn from(s: Sha1) -> sha::Sha {
        let buffer = s.buffer;
        sha::Sha {
            chain: sha::Chain {
                a: s.a,
                b: s.b,
                c: s.c,
                d: s.d,
                e: s.e,
            },
            buffer,
            count: s.count,
        }
    }
}

impl From<sha::Sha> for Sha1 {
    ghost from_gives = { λ s r. state_in r ≡ s };

    fn from(s: sha::Sha) -> Sha1 {
        let buffer = s.buffer;
        Sha1 {
            a: s.chain.a,
            b: s.chain.b,
            c: s.chain.c,
            d: s.chain.d,
            e: s.chain.e,
            buffer,
            count: s.count,
        }
    }
}

impl From<Result<[u8; 20], Refusal>> for Digest {
    ghost from_gives = { λ r a. digest_fields a ≡ told_digest r };

    fn from(r: Result<[u8; 20], Refusal>) -> Digest {
        match r {
            Ok(octets) => Digest {
                number: 0,
                place: 0,
                segment: 0,
                octets,
            },
            Err(f) => Digest {
                number: f.number as u64,
                place: f.place as u64,
                segment: f.segment as u64,
                octets: [0u8; 20],
            },
        }
    }
}

// No octets yet.
#[unsafe(no_mangle)]
pub extern "C" fn gurandepi_sha1_start() -> Sha1
    ensures { state_in result ≡ started }
{
    sha::start().into()
}

// The state with the octets of `part` behind those that were there.
#[unsafe(no_mangle)]
pub extern "C" fn gurandepi_sha1_feed(state: Sha1, part: &[u8]) -> Fed
    ensures { Feeds state part.now result }
{
    match sha::feed(state.into(), part) {
        Some(s) => Fed {
            number: 0,
            place: 0,
            segment: 0,
            state: s.into(),
        },
        None => Fed {
            number: 15,
            place: 0,
            segment: 0,
            state,
        },
    }
}

// The digest of the octets that were fed.
#[unsafe(no_mangle)]
pub extern "C" fn gurandepi_sha1_finish(state: Sha1) -> Digest
    ensures { digest_fields result ≡ 0 ∷ 0 ∷ 0 ∷ finished_of (state_in state) }
{
    let d = sha::finish(state.into());
    Digest {
        number: 0,
        place: 0,
        segment: 0,
        octets: d,
    }
}

// The digest of what a header of scope 1 seals.
#[unsafe(no_mangle)]
pub extern "C" fn gurandepi_digest_scope1(
    interchange: &[u8],
    message: &[u8],
    header: &[u8],
) -> Digest
    ensures { digest_fields result ≡ digest_numbers (digest1_of interchange.now message.now header.now) }
{
    digest_scope1(interchange, message, header).into()
}

// The digest of what a header of scope 2 seals.
#[unsafe(no_mangle)]
pub extern "C" fn gurandepi_digest_scope2(
    interchange: &[u8],
    message: &[u8],
    header: &[u8],
) -> Digest
    ensures { digest_fields result ≡ digest_numbers (digest2_of interchange.now message.now header.now) }
{
    digest_scope2(interchange, message, header).into()
}

// The digest of what a header of scope F01 seals, in the referenced interchange. `message` is the AUTACK's 0062.
#[unsafe(no_mangle)]
pub extern "C" fn gurandepi_digest_f01(
    autack: &[u8],
    referenced: &[u8],
    message: &[u8],
    header: &[u8],
) -> Digest
    ensures { digest_fields result ≡ digest_numbers (digest_f01_of autack.now referenced.now message.now header.now) }
{
    digest_f01(autack, referenced, message, header).into()
}

// The digest of what a header of scope 3 seals, in the referenced interchange. `message` is the AUTACK's 0062.
#[unsafe(no_mangle)]
pub extern "C" fn gurandepi_digest_scope3(
    autack: &[u8],
    referenced: &[u8],
    message: &[u8],
    header: &[u8],
) -> Digest
    ensures { digest_fields result ≡ digest_numbers (digest3_of autack.now referenced.now message.now header.now) }
{
    digest_scope3(autack, referenced, message, header).into()
}

impl From<Result<sums::Left, Refusal>> for OldSum {
    ghost from_gives = { λ r a. (old_sum_fields a ≡ told_sum r) × (a.single ≡ single_in r) };

    fn from(r: Result<sums::Left, Refusal>) -> OldSum {
        match r {
            Ok(x) => OldSum {
                number: 0,
                place: 0,
                segment: 0,
                sum: x.sum,
                bits: x.bits,
                single: x.single,
                loads: x.loads,
                kilograms: x.kilograms,
            },
            Err(f) => OldSum {
                number: f.number as u64,
                place: f.place as u64,
                segment: f.segment as u64,
                sum: 0,
                bits: 0,
                single: 0.0,
                loads: 0,
                kilograms: 0,
            },
        }
    }
}

// The old sum with the loads of all messages of a file: `before` is the sum that the last file left, in single precision.
#[unsafe(no_mangle)]
pub extern "C" fn gurandepi_old_sum(interchange: &[u8], before: f32) -> OldSum
    ensures result_value { old_sum_fields result ≡ sum_numbers (old_sum_of interchange.now before) }
    ensures single_value { result.single ≡ single_of (old_sum_of interchange.now before) }
{
    old_sum(interchange, before).into()
}

// The same, with the sum that the last file left as its 32 bits.
#[unsafe(no_mangle)]
pub extern "C" fn gurandepi_old_sum_bits(interchange: &[u8], before: u32) -> OldSum
    ensures result_value { old_sum_fields result ≡ sum_numbers (old_sum_bits_of interchange.now before) }
    ensures single_value { result.single ≡ single_of (old_sum_bits_of interchange.now before) }
{
    old_sum_bits(interchange, before).into()
}

// The old sum with the loads of one message.
#[unsafe(no_mangle)]
pub extern "C" fn gurandepi_message_old_sum(
    interchange: &[u8],
    message: &[u8],
    before: f32,
) -> OldSum
    ensures result_value { old_sum_fields result ≡ sum_numbers (message_old_sum_of interchange.now message.now before) }
    ensures single_value { result.single ≡ single_of (message_old_sum_of interchange.now message.now before) }
{
    message_old_sum(interchange, message, before).into()
}

#[unsafe(no_mangle)]
pub extern "C" fn gurandepi_message_old_sum_bits(
    interchange: &[u8],
    message: &[u8],
    before: u32,
) -> OldSum
    ensures result_value { old_sum_fields result ≡ sum_numbers (message_old_sum_bits_of interchange.now message.now before) }
    ensures single_value { result.single ≡ single_of (message_old_sum_bits_of interchange.now message.now before) }
{
    message_old_sum_bits(interchange, message, before).into()
}
