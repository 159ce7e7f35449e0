// The old sum, just as it ran: kilograms in single precision, one rounding for each addition.
#![tactic(auto)]

ghost use Rattle.std.specs.Prelude.{◌≡◌, ℕ, ◌+◌, ◌≤◌, true, false, not, T, pos, is_nan, to_bits, Ok};
ghost use Rattle.std.proofs.Math.Option.{Option, some};
ghost use Rattle.std.specs.Float.{binary32, fin};
ghost use Rattle.std.specs.Float.Ieee.{lt};
ghost use Rattle.kilograms.specs.OldSum.{Old, tally, limit, rounded, single, kilograms_in, added, handed_in, handed_bits};
ghost use Rattle.kilograms.specs.SingleLaws.{Whole};
ghost use Rattle.kilograms.specs.Running.{running_as, load_as, Held, Runs, Weighs, Kilos};

// The old sum after some loads; how many they were, and their exact kilograms.
#[derive(Clone, Copy)]
pub struct Tally {
    pub sum: f32,
    pub loads: u64,
    pub kilograms: u64,
}

// "a whole number from 0 to 1,073,741,824"
const LIMIT: u64 = 1073741824;

// Kept: a refusal stays a number, since the theorems and the C interface speak of its number: 23 "for any other load", 24 for a sum beyond the limit or
// "any other sum handed in".
const OTHER_LOAD: u8 = 23;

const OTHER_SUM: u8 = 24;

// The load of so many grams: whole kilograms from 0 to 100,000. None for any other.
pub fn load_of(grams: u64) -> Option<u32>
    ensures value { result ≡ load_as (kilograms_in grams) }
    ensures weighs { Weighs result }
{
    if 100000000 < grams || grams % 1000 != 0 {
        return None;
    }
    Some((grams / 1000) as u32)
}

// The whole number that a sum is.
pub fn whole(sum: f32) -> u64
    requires { Kilos sum }
    ensures { (v : ℕ) → Whole sum v → v ≤ limit → result ≡ v }
{
    std::num::truncating_f32_to_u64(sum)
}

// One load more, rounded once.
fn plus(sum: f32, load: u32) -> f32
    requires { load ≤ 100000 }
    ensures { (v : ℕ) → Whole sum v → v + load ≤ limit → result ≡ single (rounded (v + load)) }
{
    sum + load as f32
}

// One load more of so many kilograms, or the number of a refusal.
fn add_kilograms(t: Tally, load: u32) -> Result<Tally, u8>
    requires { (load ≤ 100000) × Runs (Ok t) }
    ensures { (v : ℕ) → Held (tally v t.loads t.kilograms) → t.sum ≡ single v → result ≡ running_as (added (tally v t.loads t.kilograms) (some load)) }
{
    let load_kilograms = u64::from(load);
    if LIMIT < whole(t.sum) + load_kilograms {
        return Err(OTHER_SUM);
    }
    Ok(Tally {
        sum: plus(t.sum, load),
        loads: t.loads + 1,
        kilograms: t.kilograms + load_kilograms,
    })
}

// One load more; or the number of a refusal, which what was refused before keeps.
pub fn add(k: Result<Tally, u8>, x: Option<u32>) -> Result<Tally, u8>
    requires { Runs k × Weighs x }
    ensures { (o : Old) (l : Option ℕ) → Held o → k ≡ running_as o → x ≡ load_as l → result ≡ running_as (added o l) }
{
    let t = k?;
    let Some(load) = x else {
        return Err(OTHER_LOAD);
    };
    add_kilograms(t, load)
}

// A sum that is handed in and lies above -1 and below 2^64. The whole number that it is cut to has its very bits, unless it is a fraction or minus zero.
fn handed_whole(sum: f32) -> Result<Tally, u8>
    requires { T (lt (fin true 1 (pos 0)) sum) × T (lt sum (fin false 1 (pos 64))) }
    ensures { result ≡ running_as (handed_in sum) }
{
    let v = std::num::truncating_f32_to_u64(sum);
    if LIMIT < v {
        return Err(OTHER_SUM);
    }
    let x = std::num::nearest_u32_to_f32(v as u32);
    if x.to_bits() != sum.to_bits() {
        return Err(OTHER_SUM);
    }
    Ok(Tally {
        sum,
        loads: 0,
        kilograms: 0,
    })
}

// A sum that is handed in, and no load yet: a whole number from 0 to 1,073,741,824; any other is refused, minus zero too.
pub fn handed_in(sum: f32) -> Result<Tally, u8>
    ensures { result ≡ running_as (handed_in sum) }
{
    if -1.0 < sum && sum < 18446744073709551616.0 {
        return handed_whole(sum);
    }
    Err(OTHER_SUM)
}

// The same by its 32 bits. From 0x7F800001 on they are those of no number, or of one with a sign.
pub fn handed_bits(bits: u32) -> Result<Tally, u8>
    ensures { result ≡ running_as (handed_bits bits) }
{
    if bits <= 2139095040 {
        return handed_in(f32::from_bits(bits));
    }
    Err(OTHER_SUM)
}

// The 32 bits of a sum.
pub fn bits_of(sum: f32) -> u32
    requires { T (not (is_nan sum)) }
    ensures { result ≡ to_bits binary32 sum }
{
    sum.to_bits()
}
