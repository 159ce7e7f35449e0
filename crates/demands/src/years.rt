// "How far were the old returns off?": item 12 of the later requests. The definitions are those that the calls promise: of the crate `kilograms` `rounded`,
// `added`, `added_all`, `handed_bits`, `bits_of` (OldSum.antt) and `Bounded` (Bounds.antt), of `returns` `old_sum_bits_of` (Returns.antt), `Leaves` and `Year` (Years.antt).
ghost use Rattle.std.specs.Prelude.{ℕ, suc, ◌+◌, ◌%◌, ◌≤◌, ◌<◌, ◌≡◌, List};
ghost use Rattle.std.proofs.Math.Option.{some};
ghost use Rattle.grammar.specs.Lists.{Snoc};
ghost use Rattle.grammar.specs.Grams.{Grams};
ghost use Rattle.groups.specs.Calls.{given};
ghost use Rattle.kilograms.specs.OldSum.{tally, limit, added, added_all, bits_of, handed_bits};
ghost use Rattle.kilograms.specs.Bounds.{Bounded, batch_of};
ghost use Rattle.returns.specs.Returns.{file_loads_of, message_loads_of, left, old_sum_bits_of, message_old_sum_bits_of};
ghost use Rattle.returns.specs.Years.{Leaves, Year};

// "each running sum is whole again": where a sum may be handed in, so may the one that a load more leaves, as the same whole number.
pub fn each_sum_is_whole()
    ensures { (v n e x w m f : ℕ) → handed_bits (bits_of v) ≡ tally v 0 0 → x ≤ 100000 → added (tally v n e) (some x) ≡ tally w m f → handed_bits (bits_of w) ≡ tally w 0 0 }
{}

// "what a file adds to the old sum differs from its exact kilograms by at most 32 for each load; each running sum is whole again": and the next file takes it.
// The exact kilograms are the exact sum of its loads in grams.
pub fn file_is_near()
    ensures { (s : List ℕ) (b v w n e : ℕ) (l : Snoc Grams) → handed_bits b ≡ tally v 0 0 → file_loads_of s ≡ given l → old_sum_bits_of s b ≡ left w n e → Leaves v l w n e }
{}

// So does a message.
pub fn message_is_near()
    ensures { (s m : List ℕ) (b v w n e : ℕ) (l : Snoc Grams) → handed_bits b ≡ tally v 0 0 → message_loads_of s m ≡ given l → message_old_sum_bits_of s m b ≡ left w n e → Leaves v l w n e }
{}

// "over a chain of files the bounds add up"
pub fn year_is_near()
    ensures { (v w n e : ℕ) → handed_bits (bits_of v) ≡ tally v 0 0 → Year v w n e → Bounded v w n e }
{}

// "From 300,000,000 a load of 30,000 gives 300,030,016."
pub fn example_is_booked()
    ensures { added (tally 300000000 0 0) (some 30000) ≡ tally 300030016 1 30000 }
{}

// Below 268,435,456 kg single precision moves in steps of 16 or less, which go into 30,000: from zero on, and from every multiple of 16, nothing is lost.
pub fn batch_is_exact()
    ensures { (v n e : ℕ) → v + 30000 < 268435456 → v % 16 ≡ 0 → (added (tally v n e) (some 30000) ≡ tally (v + 30000) (suc n) (e + 30000)) × ((v + 30000) % 16 ≡ 0) }
{}

// Why the year was 390 tonnes off. From 268,435,456 kg on single precision moves in steps of 32, and from 536,870,912 kg on in steps of 64. On a multiple of 64
// a load of 30,000 kg is booked as 30,016 kg: in steps of 32 it is a tie, which goes up, in steps of 64 the nearer one. And the sum is a multiple of 64 again.
pub fn batch_is_heavy()
    ensures { (v n e : ℕ) → 268435456 ≤ v → v + 30000 ≤ limit → v % 64 ≡ 0 → (added (tally v n e) (some 30000) ≡ tally (v + 30016) (suc n) (e + 30000)) × ((v + 30016) % 64 ≡ 0) }
{}

// On another multiple of 32 it is booked as 29,984 kg, and then the sum is a multiple of 64: so that this happens once.
pub fn batch_is_light_once()
    ensures { (v n e : ℕ) → 268435456 ≤ v → v + 30000 ≤ limit → v % 64 ≡ 32 → (added (tally v n e) (some 30000) ≡ tally (v + 29984) (suc n) (e + 30000)) × ((v + 29984) % 64 ≡ 0) }
{}

// There are no others: whatever the load, from there on the sum is a multiple of 32.
pub fn sum_is_multiple()
    ensures { (v n e x w m f : ℕ) → 268435456 ≤ v → added (tally v n e) (some x) ≡ tally w m f → w % 32 ≡ 0 }
{}

// So a year of 33,300 loads of 30,000 kg, 999,000 tonnes, was booked as 999,389,632 kg.
pub fn year_of_batches()
    ensures { added_all (tally 0 0 0) (batch_of 33300 30000) ≡ tally 999389632 33300 999000000 }
{}
