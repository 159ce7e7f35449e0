// The demands, in the users' words and document 01's. Each is the promise of a function that does nothing, so that the gate holds it.
// The definitions are those that the calls promise: of the crate `grammar` `Interchange` and `print_interchange` (Valid.antt, Interchange.antt), `Valid`
// (Valid.antt, with the rules of Rules.antt, Elements.antt and Loads.antt), `verdict_of` and `totals_of` (Verdict.antt), `counted_in` (Counted.antt);
// of `ranges` `scope1_of`, `scope2_of` (Ranges.antt), of `f01` `f01_of` (F01.antt), of `scope3` `scope3_of` (Scope3.antt); of `values` `value_of` (Values.antt); of `sealing` `seal_of`,
// `seal_octets_of` and `sealed` (Sealing.antt); of `register` `register_of`, `check_numbers`, `told_check` (Register.antt), of `forms` `register_text`
// (Forms.antt), of `moves` `move_of` (Stored.antt); of `writing` `Writes` (Written.antt); and here `Printed.antt`, `Companion.antt`, `Reported.antt`, `Sealed.antt`, `Range.antt` (the grammars of what is sealed) and `Read.antt`.
#![tactic(auto)]

pub mod years;

ghost use Rattle.std.specs.Prelude.{ℕ, ◌+◌, ◌-◌, ◌≤◌, false, ◌≡◌, List, ◌++◌, ◌↔◌, T, neg_ℤ, length, take, drop, Err, Ok};
ghost use Rattle.std.proofs.Math.Seq.{slice};
ghost use Rattle.syntax.specs.Content.{compared};
ghost use Rattle.syntax.specs.Octets.{octets};
ghost use Rattle.syntax.specs.Service.{fit};
ghost use Rattle.syntax.specs.declared.Refusal.{Refusal};
ghost use Rattle.syntax.specs.declared.Service.{Service};
ghost use Rattle.grammar.specs.Lists.{Snoc, size};
ghost use Rattle.grammar.specs.Grams.{no_grams};
ghost use Rattle.grammar.specs.Loads.{Shape, reversed, amount_right, grams};
ghost use Rattle.grammar.specs.Interchange.{Message};
ghost use Rattle.grammar.specs.Valid.{Interchange, print_interchange, Valid};
ghost use Rattle.grammar.specs.Verdict.{verdict_of, accepted, refused_with, totals_of, totals_in};
ghost use Rattle.grammar.specs.Counted.{counted_in, messages_in};
ghost use Rattle.groups.specs.Calls.{given, version_in};
ghost use Rattle.ranges.specs.Ranges.{Parts, parts, Run, run, scope1_of, scope2_of};
ghost use Rattle.f01.specs.F01.{f01_of};
ghost use Rattle.scope3.specs.Scope3.{scope3_of};
ghost use Rattle.filters.specs.Octets.{Octets};
ghost use Rattle.writing.specs.Written.{Text, text, Writes};
ghost use Rattle.values.specs.Values.{value_of};
ghost use Rattle.sealing.specs.Sealing.{seal_octets_of, seal_of};
ghost use Rattle.register.specs.Register.{register_of, check_numbers, told_check};
ghost use Rattle.forms.specs.Forms.{register_text};
ghost use Rattle.forms.specs.declared.Form.{Form};
ghost use Rattle.forms.specs.declared.Entry.{Entry};
ghost use Rattle.moves.specs.Stored.{move_of, AllFit};
ghost use Rattle.listing.specs.Listing.{Lists};
ghost use Rattle.gurandepi.specs.Answers.{Gives};
ghost use Rattle.gurandepi.specs.declared.Written.{Written as Exported};
ghost use Rattle.demands.specs.Ordinals.{SegmentAt};
ghost use Rattle.demands.specs.Stated.{In, HasHeader, headers_of, trailers_of, Pairs, CountsAgree, number0036, Refers, Refers3};
ghost use Rattle.demands.specs.Sewn.{Sewn};
ghost use Rattle.demands.specs.Allowed.{Allows, Seals};
ghost use Rattle.demands.specs.Valued.{Valued};
ghost use Rattle.demands.specs.Printed.{Scope1, Scope2, F01, Scope3};
ghost use Rattle.demands.specs.Reported.{Reported};
ghost use Rattle.demands.specs.Companion.{Companion1, CompanionRun};
ghost use Rattle.sha.specs.Sha.{sha1};
ghost use Rattle.sha.specs.Feeding.{started, fed_all, join, finished_of};
ghost use Rattle.demands.specs.Digested.{OfRanges, Digested};
ghost use Rattle.demands.specs.Sealed.{Accepted, Signed, Kept};
ghost use Rattle.demands.specs.Range.{Reads, Range1, scope1, Range2, scope2, f01, scope3};
ghost use Rattle.demands.specs.Read.{syntax_of, Read1, Alike1, Read2, Alike2, ReadF, AlikeF, Read3, Alike3};

// D1. "A refusing call writes nothing into the buffers lent to it.": a call that writes a text and answers a refusal leaves the lent buffer as it was, every octet
// of it.
pub fn refusal_writes_nothing()
    ensures { (x : Text) (out : List ℕ) (f : Refusal) (left : List ℕ) → Writes x out (Err f) left → left ≡ out }
{}

// The listing, too.
pub fn refused_listing_writes_nothing()
    ensures { (t out : List ℕ) (f : Refusal) (left : List ℕ) → Lists t out (Err f) left → left ≡ out }
{}

// And each exported call that writes: where its answer's number is not 0.
pub fn exported_refusal_writes_nothing()
    ensures { (x : Text) (out : List ℕ) (r : Exported) (left : List ℕ) → Gives x out r left → ((r.number ≡ 0) → ⊥) → left ≡ out }
{}

// D2a. "An interchange is accepted exactly when it meets ISO 9735 parts 1, 2, 5 and 6 as the rules paper narrows or relaxes them": the verdict on
// the octets s is accepted if and only if some valid interchange prints s.
pub fn accepted_exactly()
    ensures { (s : List ℕ) → ((t : Interchange) × (verdict_of s ≡ accepted t)) ↔ ((t : Interchange) × Valid t × (print_interchange t ≡ s)) }
{}

// D2b. Two valid interchanges that print the same octets are equal: the same UNA, the same everything.
pub fn one_reading()
    ensures { (t v : Interchange) → Valid t → Valid v → print_interchange t ≡ print_interchange v → t ≡ v }
{}

// The reading is what is counted: where s is accepted, a valid interchange that prints s is the verdict's reading; its messages in order have
// the verdict's 0062, type, count of segments, loads and total.
pub fn reading_is_counted()
    ensures { (s : List ℕ) (t v : Interchange) → verdict_of s ≡ accepted t → Valid v → print_interchange v ≡ s → (v ≡ t) × (counted_in v ≡ counted_in t) }
{}

// .. and the totals that are given back for a 0062 are those of that reading's message.
pub fn totals_are_read()
    ensures { (s : List ℕ) (v : Interchange) (r : List ℕ) → Valid v → print_interchange v ≡ s → totals_of s r ≡ totals_in (messages_in v) (compared r) }
{}

// A refused input is the printing of no valid interchange.
pub fn refused_is_none()
    ensures { (s : List ℕ) (f : Refusal) → verdict_of s ≡ refused_with f → (t : Interchange) → Valid t → print_interchange t ≡ s → ⊥ }
{}

// The verdict's refusals are the numbers 1 to 12: never 0, which the accepted case has, nor 13 and up, which the calls add.
pub fn refusals_are_numbered()
    ensures { (s : List ℕ) (f : Refusal) → verdict_of s ≡ refused_with f → (1 ≤ f.number) × (f.number ≤ 12) }
{}

// "Each refusal of 1 to 12 shall carry, beside number and place, the ordinal of the segment at the place: UNB is 1, UNA counts as none, and an end of input counts as the
// next ordinal. Refusals 1 and 2 carry 0.": for the others the octets from UNB to the place are the printing of one segment fewer than the ordinal; for 3 the octets up to
// where the segment starts that holds the octet.
pub fn refusal_names_its_segment()
    ensures { (s : List ℕ) (f : Refusal) → verdict_of s ≡ refused_with f → (f.number ≤ 2 → f.segment ≡ 0) × (3 ≤ f.number → SegmentAt s f) }
{}

// "Security headers and trailers pair one to one by reference": in every message of an accepted interchange.
pub fn pairs_one_to_one()
    ensures { (s : List ℕ) (i : Interchange) → verdict_of s ≡ accepted i → (m : Message) → In m (messages_in i) → Pairs (headers_of m) (trailers_of m) }
{}

// "And all counts agree": 0588 (where the edition has it), 0074 and the control totals of every message, and 0036 of the interchange.
pub fn counts_agree()
    ensures { (s : List ℕ) (i : Interchange) → verdict_of s ≡ accepted i → (number0036 i ≡ size (messages_in i)) × ((m : Message) → In m (messages_in i) → CountsAgree (version_in i) m) }
{}

// D2c. Ranges are given, not only right when given. Scope 1: for s, m and r a range is given if and only if s is accepted and has a message with the 0062 m
// that has a header with the 0534 r and the scope code 1.
pub fn scope1_is_given()
    ensures { (s m r : List ℕ) → ((p : Parts) × (scope1_of s m r ≡ given p)) ↔ HasHeader s m r (octets "1") }
{}

// Scope 2: the same, with the scope code 2.
pub fn scope2_is_given()
    ensures { (s m r : List ℕ) → ((p : Run) × (scope2_of s m r ≡ given p)) ↔ HasHeader s m r (octets "2") }
{}

// F01: a run is given if and only if the AUTACK's interchange a has the message m with a header of the 0534 r and the scope code F01, a USY of it names
// that header, and s is accepted, has the 0020 of the first such USX in its UNB, and has messages that are no AUTACK with no AUTACK between them. Where
// one of these fails and both are accepted, the answer is 13.
pub fn f01_is_given()
    ensures { (a s m r : List ℕ) → ((p : Run) × (f01_of a s m r ≡ given p)) ↔ Refers a s m r }
{}

// Scope 3: a message is given if and only if the AUTACK's interchange a has the message m with a header of the 0534 r and the scope code 3, a USY of it names
// that header, and s is accepted, has the 0020 of the first such USX in its UNB, and has a message with that USX's 0062 that is no AUTACK. Where one of these
// fails and both are accepted, the answer is 13.
pub fn scope3_is_given()
    ensures { (a s m r : List ℕ) → ((p : Run) × (scope3_of a s m r ≡ given p)) ↔ Refers3 a s m r }
{}

// The value call gives v if and only if s is accepted and has the message and the header that are named, and the header's filter reads v from the text of
// its seal: 0560 of the USR after the UST, or in an AUTACK of the first USY that names the header.
pub fn value_is_given()
    ensures { (s m r v : List ℕ) → (value_of s m r ≡ text v) ↔ Valued s m r v }
{}

// What a range call hands back is the printing of that part of the one tree. Scope 1: of the header group, and of the body, of the message and
// the header that are named.
pub fn scope1_is_printed()
    ensures { (s m r : List ℕ) (a b c d : ℕ) → scope1_of s m r ≡ given (parts a b c d) → Scope1 s m r a b c d }
{}

// Scope 2: of the run from the header group to before its trailer: the headers behind it, the body, and the earlier trailers included.
pub fn scope2_is_printed()
    ensures { (s m r : List ℕ) (a b : ℕ) → scope2_of s m r ≡ given (run a b) → Scope2 s m r a b }
{}

// F01: of the run of messages that are no AUTACK, from the first UNH to the last UNT, of the interchange that is referred to.
pub fn f01_is_printed()
    ensures { (a s m r : List ℕ) (x y : ℕ) → f01_of a s m r ≡ given (run x y) → F01 a s m r x y }
{}

// Scope 3: of the message, from its UNH through its UNT, that the AUTACK refers to.
pub fn scope3_is_printed()
    ensures { (a s m r : List ℕ) (x y : ℕ) → scope3_of a s m r ≡ given (run x y) → Scope3 a s m r x y }
{}

// "A companion call gives start and end. On refusal the part is empty and starts at 0": the calls that hand back a part tell no number of their own; for
// every input the part is that from the companion's start to its end. Scope 1, scope 2, F01 and scope 3.
pub fn part_is_companion()
    ensures { (a s m r : List ℕ) → Companion1 s (scope1_of s m r) × (CompanionRun s (scope2_of s m r) × (CompanionRun s (f01_of a s m r) × CompanionRun s (scope3_of a s m r))) }
{}

// "seal A1 scope 1 octets 82": the number in a seal line of the report is how many octets the range call hands back. Scope 1: of both parts together.
pub fn report_counts_scope1()
    ensures { (s m r : List ℕ) (a b c d : ℕ) → scope1_of s m r ≡ given (parts a b c d) → Reported s m r (octets "1") (length (slice a b s ++ slice c d s)) × (length (slice a b s ++ slice c d s) ≡ b - a + (d - c)) }
{}

// Scope 2: of the run.
pub fn report_counts_scope2()
    ensures { (s m r : List ℕ) (a b : ℕ) → scope2_of s m r ≡ given (run a b) → Reported s m r (octets "2") (length (slice a b s)) × (length (slice a b s) ≡ b - a) }
{}

// D2d. Sealing has a text, not only a right one: the octets to be signed, if and only if s is accepted and none of 13 and 16 holds
pub fn seal_octets_is_given()
    ensures { (s m r : List ℕ) (f : ℕ) → ((x : List ℕ) × (seal_octets_of s m r f ≡ text x)) ↔ Allows s m r f }
{}

// .. and the sealed interchange, if and only if none of 13, 16 and 14 holds. (15 is told of a text that is too long to be written.)
pub fn seal_is_given()
    ensures { (s m r : List ℕ) (f : ℕ) (v : List ℕ) → ((x : List ℕ) × (seal_of s m r f v ≡ text x)) ↔ Seals s m r f v }
{}

// For every input on which `seal` succeeds; x is what it writes, for the interchange s, the message m, REF r, F f and VALUE v.
//
// What it is to succeed: a call that writes a text and answers a length has written that text, first in the lent buffer, and it has 65,535 octets
// at most.
pub fn success_is_written()
    ensures { (t : Text) (out : List ℕ) (k : ℕ) (left : List ℕ) → Writes t out (Ok k) left → (t ≡ text (take k left)) × ((length (take k left) ≡ k) × (k ≤ 65535)) }
{}

// "A message we seal is accepted": the result is accepted; its tree is the old one with the new header
// group first and the new trailer group last in that message and UNT's count four more
pub fn sealed_is_accepted()
    ensures { (s m r : List ℕ) (f : ℕ) (v x : List ℕ) → seal_of s m r f v ≡ text x → length x ≤ 65535 → Accepted s m r f v x }
{}

// "keeps its other segments octet for octet": what `seal` writes is the old octets with the new header put in behind UNH, the new trailer before UNT, and
// UNT's 0074 replaced.
pub fn sealed_octets()
    ensures { (s m r : List ℕ) (f : ℕ) (v x : List ℕ) → seal_of s m r f v ≡ text x → Sewn s m r f v x }
{}

// "For one interchange, message, REF and F, the new header's range in the sealed interchange is what the first call wrote."
pub fn sealed_is_signed()
    ensures { (s m r : List ℕ) (f : ℕ) (v x : List ℕ) → seal_of s m r f v ≡ text x → length x ≤ 65535 → Signed s m r f x }
{}

// The value call gives VALUE of it.
pub fn sealed_has_value()
    ensures { (s m r : List ℕ) (f : ℕ) (v x : List ℕ) → Octets v → seal_of s m r f v ≡ text x → length x ≤ 65535 → value_of x m r ≡ text v }
{}

// "Ranges of scopes 1 and 2 already there keep their octets".
pub fn sealed_keeps_ranges()
    ensures { (s m r : List ℕ) (f : ℕ) (v x : List ℕ) → seal_of s m r f v ≡ text x → length x ≤ 65535 → Kept s x }
{}

// Reversed loads. "Allow one leading minus before the digits": with it an amount is written right where it is without it, and counts as much below zero as it counts above
// zero without it. "Minus zero is zero."
pub fn minus_reverses()
    ensures { (u : Shape) (a : List ℕ) → reversed a ≡ false → (amount_right u (octets "-" ++ a) ≡ amount_right u a) × ((grams u (octets "-" ++ a) ≡ neg_ℤ (grams u a)) × (grams u a ≡ no_grams → grams u (octets "-" ++ a) ≡ no_grams)) }
{}

// D2e. The check call accepts exactly what the write call writes, in each form. Left is what `register_check` promises, with the answer `Same`; right what
// `register_write` promises, with the answer the length of g, and a lent buffer that now starts with g. The buffer is any that has room for g.
// A register longer than 65,535 octets (in the old form of more than 3,276 messages) is not written (15), nor is one with a negative total in a form without
// sign (19), and the check accepts none there: it answers 13.
pub fn check_accepts_written()
    ensures { (f : Form) (s g out : List ℕ) → length g ≤ length out → (told_check (Ok tt) ≡ check_numbers f s g) ↔ Writes (register_of f s) out (Ok (length g)) (g ++ drop (length g) out) }
{}

// The moves. "Where no move is refused, old to new to old gives the same octets, and so does new to old to new.", "item 2's round trip holds for form 3": of any two
// forms; what a move of r wrote, first in the lent buffer, is moved back to r. So the way back is never refused with 17 or 19, only where r has no room (15).
pub fn moved_there_and_back()
    ensures { (f g : Form) (r out left : List ℕ) (n : ℕ) → Octets r → Writes (move_of f g r) out (Ok n) left → move_of g f (take n left) ≡ text r }
{}

// A stored register is moved, and not refused with 17 or 19, if and only if it is the text of entries that fit both forms: of at most 65,535, whose numbers are below
// 2^32, and their grams from 0 to 2^64 - 1, in form 3 from -2^63 to 2^63 - 1. So one that starts otherwise, is cut or overlong or has octets left over is the text of none.
pub fn moved_exactly()
    ensures { (f g : Form) (r : List ℕ) → Octets r → ((t : List ℕ) × (move_of f g r ≡ text t)) ↔ ((es : List Entry) × (length es ≤ 65535) × AllFit f es × AllFit g es × (register_text f es ≡ r)) }
{}

// What is written for an interchange in one form is moved to what is written for it in another, or refused as that is: with 19.
pub fn written_is_moved()
    ensures { (f g : Form) (s out left : List ℕ) (n : ℕ) → Writes (register_of f s) out (Ok n) left → move_of f g (take n left) ≡ register_of g s }
{}

// D3. "If their sealed octets are equal, they hold the same segments, element by element". Scope 1: the header group, then the body, joined. Octets have at most one reading under the
// grammar of the range.
pub fn scope1_one_reading()
    ensures { (σ : Service) → T (fit σ) → (o : List ℕ) (t v : Range1) → Reads scope1 σ o t → Reads scope1 σ o v → t ≡ v }
{}

// What the call hands back has one; it is what the call splits, and what is counted and totalled of the message.
pub fn scope1_is_read()
    ensures { (s m r : List ℕ) (a b c d : ℕ) → scope1_of s m r ≡ given (parts a b c d) → Read1 s m r a b c d }
{}

// Two ranges of the same version, repertoire and service characters that have equal octets, joined, have equal readings, and the same split.
pub fn scope1_reads_alike()
    ensures { (s m r s' m' r' : List ℕ) (a b c d a' b' c' d' : ℕ) → scope1_of s m r ≡ given (parts a b c d) → scope1_of s' m' r' ≡ given (parts a' b' c' d') → syntax_of s ≡ syntax_of s' → slice a b s ++ slice c d s ≡ slice a' b' s' ++ slice c' d' s' → Alike1 s m r a b c d s' m' r' a' b' c' d' }
{}

// Scope 2: the header group, the headers behind it, the body and the earlier trailers.
pub fn scope2_one_reading()
    ensures { (σ : Service) → T (fit σ) → (o : List ℕ) (t v : Range2) → Reads scope2 σ o t → Reads scope2 σ o v → t ≡ v }
{}

pub fn scope2_is_read()
    ensures { (s m r : List ℕ) (a b : ℕ) → scope2_of s m r ≡ given (run a b) → Read2 s m r a b }
{}

pub fn scope2_reads_alike()
    ensures { (s m r s' m' r' : List ℕ) (a b a' b' : ℕ) → scope2_of s m r ≡ given (run a b) → scope2_of s' m' r' ≡ given (run a' b') → syntax_of s ≡ syntax_of s' → slice a b s ≡ slice a' b' s' → Alike2 s m r a b s' m' r' a' b' }
{}

// F01: the messages of the run. The syntax is that of the interchange that is referred to, in which the octets lie, not of the AUTACK's.
pub fn f01_one_reading()
    ensures { (σ : Service) → T (fit σ) → (o : List ℕ) (t v : Snoc Message) → Reads f01 σ o t → Reads f01 σ o v → t ≡ v }
{}

pub fn f01_is_read()
    ensures { (t s m r : List ℕ) (a b : ℕ) → f01_of t s m r ≡ given (run a b) → ReadF t s m r a b }
{}

pub fn f01_reads_alike()
    ensures { (t s m r t' s' m' r' : List ℕ) (a b a' b' : ℕ) → f01_of t s m r ≡ given (run a b) → f01_of t' s' m' r' ≡ given (run a' b') → syntax_of s ≡ syntax_of s' → slice a b s ≡ slice a' b' s' → AlikeF t s m r a b t' s' m' r' a' b' }
{}

// Scope 3: the message that is referred to. The premises are the same, and the syntax is that of the interchange in which it lies.
pub fn scope3_one_reading()
    ensures { (σ : Service) → T (fit σ) → (o : List ℕ) (t v : Message) → Reads scope3 σ o t → Reads scope3 σ o v → t ≡ v }
{}

pub fn scope3_is_read()
    ensures { (t s m r : List ℕ) (a b : ℕ) → scope3_of t s m r ≡ given (run a b) → Read3 t s m r a b }
{}

pub fn scope3_reads_alike()
    ensures { (t s m r t' s' m' r' : List ℕ) (a b a' b' : ℕ) → scope3_of t s m r ≡ given (run a b) → scope3_of t' s' m' r' ≡ given (run a' b') → syntax_of s ≡ syntax_of s' → slice a b s ≡ slice a' b' s' → Alike3 t s m r a b t' s' m' r' a' b' }
{}

// "However the octets are cut, the digest is that of the joined octets": start, feed the parts ps one after the other, finish.
pub fn digest_however_cut()
    ensures { (ps : List (List ℕ)) → length (join ps) ≤ 4294967295 → finished_of (fed_all started ps) ≡ sha1 (join ps) }
{}

// "A call that gives the digest of a named range": of exactly the octets that the range call hands back, with "the two parts of scope 1 one after the other".
pub fn digest_is_of_range()
    ensures { OfRanges }
{}

// Sealing end to end: the digest of the new header's range in the sealed interchange is the digest of the octets that were handed out for signing.
pub fn sealed_digest_is_signed()
    ensures { (s m r : List ℕ) (f : ℕ) (v x : List ℕ) → seal_of s m r f v ≡ text x → length x ≤ 65535 → Digested s m r f x }
{}
