// The exported calls, for C and Rust: a static library over crates/gurandepi, whose calls it makes under the same names and with the same clauses.
// include/gurandepi.h says them in C, rust/src/calls.rs in Rust, and c/interface compares the three. A slice goes by a pointer and a length in C. The
// structs are those of crates/gurandepi.
#![tactic(auto)]

ghost use Rattle.std.specs.Prelude.{◌≡◌, ◌∷◌};
ghost use Rattle.grammar.specs.Verdict.{verdict_of, numbers, totals_of, total_numbers, total_grams};
ghost use Rattle.ranges.specs.Ranges.{scope1_of, scope2_of};
ghost use Rattle.f01.specs.F01.{f01_of};
ghost use Rattle.scope3.specs.Scope3.{scope3_of};
ghost use Rattle.ranges.specs.Told.{part_numbers, run_numbers};
ghost use Rattle.values.specs.Values.{value_of};
ghost use Rattle.sealing.specs.Sealing.{seal_octets_of, seal_of};
ghost use Rattle.register.specs.Register.{register_of, check_numbers};
ghost use Rattle.forms.specs.declared.Form.TheVariants.{Old, Small, Signed};
ghost use Rattle.moves.specs.Stored.{move_of};
ghost use Rattle.sha.specs.Feeding.{started, finished_of};
ghost use Rattle.digest.specs.Digests.{digest1_of, digest2_of, digest_f01_of, digest3_of, digest_numbers};
ghost use Rattle.returns.specs.Returns.{old_sum_of, old_sum_bits_of, message_old_sum_of, message_old_sum_bits_of, single_of, sum_numbers};
ghost use Rattle.gurandepi.specs.Answers.{old_sum_fields, answer_fields, totals_fields, parts_fields, range_fields, Gives, digest_fields, state_in, Feeds};

use gurandepi::{Answer, Digest, Fed, Loads, OldSum, Parts, Range, Sha1, Written};

// The verdict on an interchange.
#[unsafe(no_mangle)]
pub extern "C" fn gurandepi_judge(interchange: &[u8]) -> Answer
    ensures { answer_fields result ≡ numbers (verdict_of interchange.now) }
{
    gurandepi::gurandepi_judge(interchange)
}

// The loads of a message, named by its 0062, and their grams.
#[unsafe(no_mangle)]
pub extern "C" fn gurandepi_totals(interchange: &[u8], message: &[u8]) -> Loads
    ensures result_value { totals_fields result ≡ total_numbers (totals_of interchange.now message.now) }
    ensures grams_value { result.grams ≡ total_grams (totals_of interchange.now message.now) }
{
    gurandepi::gurandepi_totals(interchange, message)
}

// Scope 1 of a header, named by its 0534: where its header part and the body part start and end.
#[unsafe(no_mangle)]
pub extern "C" fn gurandepi_scope1(interchange: &[u8], message: &[u8], header: &[u8]) -> Parts
    ensures { parts_fields result ≡ part_numbers (scope1_of interchange.now message.now header.now) }
{
    gurandepi::gurandepi_scope1(interchange, message, header)
}

// Scope 2: where its run starts and ends.
#[unsafe(no_mangle)]
pub extern "C" fn gurandepi_scope2(interchange: &[u8], message: &[u8], header: &[u8]) -> Range
    ensures { range_fields result ≡ run_numbers (scope2_of interchange.now message.now header.now) }
{
    gurandepi::gurandepi_scope2(interchange, message, header)
}

// F01: where its run starts and ends in the referenced interchange. `message` is the AUTACK's 0062.
#[unsafe(no_mangle)]
pub extern "C" fn gurandepi_f01(
    autack: &[u8],
    referenced: &[u8],
    message: &[u8],
    header: &[u8],
) -> Range
    ensures { range_fields result ≡ run_numbers (f01_of autack.now referenced.now message.now header.now) }
{
    gurandepi::gurandepi_f01(autack, referenced, message, header)
}

// Scope 3, of the GS1 subset: where the message starts and ends, in the referenced interchange, that the AUTACK names. `message` is the AUTACK's 0062.
#[unsafe(no_mangle)]
pub extern "C" fn gurandepi_scope3(
    autack: &[u8],
    referenced: &[u8],
    message: &[u8],
    header: &[u8],
) -> Range
    ensures { range_fields result ≡ run_numbers (scope3_of autack.now referenced.now message.now header.now) }
{
    gurandepi::gurandepi_scope3(autack, referenced, message, header)
}

// The value that a header's seal carries, into `out`.
#[unsafe(no_mangle)]
pub extern "C" fn gurandepi_value(
    interchange: &[u8],
    message: &[u8],
    header: &[u8],
    out: &mut [u8],
) -> Written
    ensures { Gives (value_of interchange.now message.now header.now) out.old result out.new }
{
    gurandepi::gurandepi_value(interchange, message, header, out)
}

// The octets to be signed when the message is sealed under `reference`, with the filter 2 or 7, into `out`.
#[unsafe(no_mangle)]
pub extern "C" fn gurandepi_seal_octets(
    interchange: &[u8],
    message: &[u8],
    reference: &[u8],
    filter: u64,
    out: &mut [u8],
) -> Written
    ensures { Gives (seal_octets_of interchange.now message.now reference.now filter) out.old result out.new }
{
    gurandepi::gurandepi_seal_octets(interchange, message, reference, filter, out)
}

// The sealed interchange, into `out`. `value` is the signature, as octets.
#[unsafe(no_mangle)]
pub extern "C" fn gurandepi_seal(
    interchange: &[u8],
    message: &[u8],
    reference: &[u8],
    filter: u64,
    value: &[u8],
    out: &mut [u8],
) -> Written
    ensures { Gives (seal_of interchange.now message.now reference.now filter value.now) out.old result out.new }
{
    gurandepi::gurandepi_seal(interchange, message, reference, filter, value, out)
}

// The register of an interchange in the old form, into `out`. Each form has calls of its own: a form by a number could be none.
#[unsafe(no_mangle)]
pub extern "C" fn gurandepi_register_write(interchange: &[u8], out: &mut [u8]) -> Written
    ensures { Gives (register_of Old interchange.now) out.old result out.new }
{
    gurandepi::gurandepi_register_write(interchange, out)
}

// The same in the form with signed grams.
#[unsafe(no_mangle)]
pub extern "C" fn gurandepi_register_write_signed(interchange: &[u8], out: &mut [u8]) -> Written
    ensures { Gives (register_of Signed interchange.now) out.old result out.new }
{
    gurandepi::gurandepi_register_write_signed(interchange, out)
}

// Whether `kept` is the register of the interchange in the old form.
#[unsafe(no_mangle)]
pub extern "C" fn gurandepi_register_check(interchange: &[u8], kept: &[u8]) -> Answer
    ensures { answer_fields result ≡ check_numbers Old interchange.now kept.now }
{
    gurandepi::gurandepi_register_check(interchange, kept)
}

// The same in the smaller form, which is only read.
#[unsafe(no_mangle)]
pub extern "C" fn gurandepi_register_check_small(interchange: &[u8], kept: &[u8]) -> Answer
    ensures { answer_fields result ≡ check_numbers Small interchange.now kept.now }
{
    gurandepi::gurandepi_register_check_small(interchange, kept)
}

// The same in the form with signed grams.
#[unsafe(no_mangle)]
pub extern "C" fn gurandepi_register_check_signed(interchange: &[u8], kept: &[u8]) -> Answer
    ensures { answer_fields result ≡ check_numbers Signed interchange.now kept.now }
{
    gurandepi::gurandepi_register_check_signed(interchange, kept)
}

// A stored register of the old form in that with signed grams, into `out`.
#[unsafe(no_mangle)]
pub extern "C" fn gurandepi_register_old_to_signed(stored: &[u8], out: &mut [u8]) -> Written
    ensures { Gives (move_of Old Signed stored.now) out.old result out.new }
{
    gurandepi::gurandepi_register_old_to_signed(stored, out)
}

// And back.
#[unsafe(no_mangle)]
pub extern "C" fn gurandepi_register_signed_to_old(stored: &[u8], out: &mut [u8]) -> Written
    ensures { Gives (move_of Signed Old stored.now) out.old result out.new }
{
    gurandepi::gurandepi_register_signed_to_old(stored, out)
}

// One of the smaller form in either.
#[unsafe(no_mangle)]
pub extern "C" fn gurandepi_register_small_to_signed(stored: &[u8], out: &mut [u8]) -> Written
    ensures { Gives (move_of Small Signed stored.now) out.old result out.new }
{
    gurandepi::gurandepi_register_small_to_signed(stored, out)
}

#[unsafe(no_mangle)]
pub extern "C" fn gurandepi_register_small_to_old(stored: &[u8], out: &mut [u8]) -> Written
    ensures { Gives (move_of Small Old stored.now) out.old result out.new }
{
    gurandepi::gurandepi_register_small_to_old(stored, out)
}

// No octets yet.
#[unsafe(no_mangle)]
pub extern "C" fn gurandepi_sha1_start() -> Sha1
    ensures { state_in result ≡ started }
{
    gurandepi::gurandepi_sha1_start()
}

// The state with the octets of `part` behind those that were there.
#[unsafe(no_mangle)]
pub extern "C" fn gurandepi_sha1_feed(state: Sha1, part: &[u8]) -> Fed
    ensures { Feeds state part.now result }
{
    gurandepi::gurandepi_sha1_feed(state, part)
}

// The digest of the octets that were fed.
#[unsafe(no_mangle)]
pub extern "C" fn gurandepi_sha1_finish(state: Sha1) -> Digest
    ensures { digest_fields result ≡ 0 ∷ 0 ∷ 0 ∷ finished_of (state_in state) }
{
    gurandepi::gurandepi_sha1_finish(state)
}

// The digest of what a header of scope 1 seals.
#[unsafe(no_mangle)]
pub extern "C" fn gurandepi_digest_scope1(
    interchange: &[u8],
    message: &[u8],
    header: &[u8],
) -> Digest
    ensures { digest_fields result ≡ digest_numbers (digest1_of interchange.now message.now header.now) }
{
    gurandepi::gurandepi_digest_scope1(interchange, message, header)
}

// The digest of what a header of scope 2 seals.
#[unsafe(no_mangle)]
pub extern "C" fn gurandepi_digest_scope2(
    interchange: &[u8],
    message: &[u8],
    header: &[u8],
) -> Digest
    ensures { digest_fields result ≡ digest_numbers (digest2_of interchange.now message.now header.now) }
{
    gurandepi::gurandepi_digest_scope2(interchange, message, header)
}

// The digest of what a header of scope F01 seals, in the referenced interchange. `message` is the AUTACK's 0062.
#[unsafe(no_mangle)]
pub extern "C" fn gurandepi_digest_f01(
    autack: &[u8],
    referenced: &[u8],
    message: &[u8],
    header: &[u8],
) -> Digest
    ensures { digest_fields result ≡ digest_numbers (digest_f01_of autack.now referenced.now message.now header.now) }
{
    gurandepi::gurandepi_digest_f01(autack, referenced, message, header)
}

// The digest of what a header of scope 3 seals, in the referenced interchange. `message` is the AUTACK's 0062.
#[unsafe(no_mangle)]
pub extern "C" fn gurandepi_digest_scope3(
    autack: &[u8],
    referenced: &[u8],
    message: &[u8],
    header: &[u8],
) -> Digest
    ensures { digest_fields result ≡ digest_numbers (digest3_of autack.now referenced.now message.now header.now) }
{
    gurandepi::gurandepi_digest_scope3(autack, referenced, message, header)
}

// The old sum with the loads of all messages of a file: `before` is the sum that the last file left, in single precision.
#[unsafe(no_mangle)]
pub extern "C" fn gurandepi_old_sum(interchange: &[u8], before: f32) -> OldSum
    ensures result_value { old_sum_fields result ≡ sum_numbers (old_sum_of interchange.now before) }
    ensures single_value { result.single ≡ single_of (old_sum_of interchange.now before) }
{
    gurandepi::gurandepi_old_sum(interchange, before)
}

// The same, with the sum that the last file left as its 32 bits.
#[unsafe(no_mangle)]
pub extern "C" fn gurandepi_old_sum_bits(interchange: &[u8], before: u32) -> OldSum
    ensures result_value { old_sum_fields result ≡ sum_numbers (old_sum_bits_of interchange.now before) }
    ensures single_value { result.single ≡ single_of (old_sum_bits_of interchange.now before) }
{
    gurandepi::gurandepi_old_sum_bits(interchange, before)
}

// The old sum with the loads of one message.
#[unsafe(no_mangle)]
pub extern "C" fn gurandepi_message_old_sum(
    interchange: &[u8],
    message: &[u8],
    before: f32,
) -> OldSum
    ensures result_value { old_sum_fields result ≡ sum_numbers (message_old_sum_of interchange.now message.now before) }
    ensures single_value { result.single ≡ single_of (message_old_sum_of interchange.now message.now before) }
{
    gurandepi::gurandepi_message_old_sum(interchange, message, before)
}

#[unsafe(no_mangle)]
pub extern "C" fn gurandepi_message_old_sum_bits(
    interchange: &[u8],
    message: &[u8],
    before: u32,
) -> OldSum
    ensures result_value { old_sum_fields result ≡ sum_numbers (message_old_sum_bits_of interchange.now message.now before) }
    ensures single_value { result.single ≡ single_of (message_old_sum_bits_of interchange.now message.now before) }
{
    gurandepi::gurandepi_message_old_sum_bits(interchange, message, before)
}
