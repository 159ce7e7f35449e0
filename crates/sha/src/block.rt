// One block of 64 octets: the message schedule, the eighty rounds in four stretches, each with its own function and constant, and the sums.
ghost use Rattle.std.specs.Prelude.{◌≡◌, ℕ, length};
ghost use Rattle.sha.specs.Sha.{next, words, schedule, rounds, summed, block};
ghost use Rattle.sha.specs.Loops.{round_by, IsStretch};

use crate::Chain;
use crate::words::{add, choice, joined, most, odd_bits, turned};

// The word of the schedule that four earlier ones give.
fn turned_four(p: u32, q: u32, r: u32, s: u32) -> u32
    ensures { result ≡ next p q r s }
{
    turned(p ^ q ^ r ^ s, 1)
}

// The words of a block, and the other 64 words of the schedule.
// Kept: written into room that is lent. Handed out as an array, it takes a tenth more time.
fn schedule(s: &[u8; 64], w: &mut [u32; 80])
    ensures { w.new ≡ schedule 64 (words 16 s.now) }
{
    for i in 0..16 {
        w[i] = joined(s[i * 4], s[i * 4 + 1], s[i * 4 + 2], s[i * 4 + 3]);
    }
    for t in 16..80 {
        w[t] = turned_four(w[t - 3], w[t - 8], w[t - 14], w[t - 16]);
    }
}

// One round: `f` is what its function gives, `k` its constant, `w` its word of the schedule.
fn round(s: Chain, f: u32, k: u32, w: u32) -> Chain
    ensures { result ≡ round_by f k w s }
{
    let x = add(add(add(add(turned(s.a, 5), f), s.e), k), w);
    let y = turned(s.b, 30);
    Chain {
        a: x,
        b: s.a,
        c: y,
        d: s.c,
        e: s.d,
    }
}

// Some rounds, one for each word of the schedule in `w`: `f` is their function, `k` their constant.
fn stretch<F: Fn(u32, u32, u32) -> u32>(w: &[u32], f: F, k: u32, h: Chain) -> Chain
    requires { F.IsAlwaysCallable f }
    ensures { (t : ℕ) → IsStretch (F.post f) k t (length w.now) → result ≡ rounds t w.now h }
{
    let mut s = h;
    for x in w {
        s = round(s, f(s.b, s.c, s.d), k, *x);
    }
    s
}

// The four stretches of twenty rounds.
fn eighty(w: &[u32; 80], h: Chain) -> Chain
    ensures { result ≡ rounds 0 w.now h }
{
    let a = stretch(&w[..20], choice, 0x5a827999, h);
    let b = stretch(&w[20..40], odd_bits, 0x6ed9eba1, a);
    let c = stretch(&w[40..60], most, 0x8f1bbcdc, b);
    stretch(&w[60..], odd_bits, 0xca62c1d6, c)
}

fn total(h: Chain, s: Chain) -> Chain
    ensures { result ≡ summed h s }
{
    Chain {
        a: add(s.a, h.a),
        b: add(s.b, h.b),
        c: add(s.c, h.c),
        d: add(s.d, h.d),
        e: add(s.e, h.e),
    }
}

// The hash value after one block, from the one before it.
fn compressed(h: Chain, s: &[u8; 64], w: &mut [u32; 80]) -> Chain
    ensures { result ≡ block h s.now }
{
    schedule(s, &mut *w);
    total(h, eighty(w, h))
}

// The same of octets that the caller has as a slice. `w` is room for the schedule, lent so that it is made once for many blocks.
pub fn compress(h: Chain, s: &[u8], w: &mut [u32]) -> Chain
    requires { (length s.now ≡ 64) × (length w.old ≡ 80) }
    ensures { result ≡ block h s.now }
{
    match (s.first_chunk::<64>(), w.first_chunk_mut::<80>()) {
        (Some(octets), Some(words)) => compressed(h, octets, words),
        _ => h,
    }
}
