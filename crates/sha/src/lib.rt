// SHA-1 by FIPS 180-4, fed by parts as they come: `start`, `feed` for each part, `finish`. specs/Sha.antt is FIPS's page, specs/Feeding.antt
// says what the three calls make of a state, any state.
#![tactic(auto)]

pub mod block;
pub mod words;

ghost use Rattle.std.specs.Prelude.{◌≡◌, ◌*◌, ◌/◌, ◌%◌, ◌<◌, ◌∷◌, ◌++◌, take, slice_index};
ghost use Rattle.sha.specs.Sha.{zeros, eight, output};
ghost use Rattle.sha.specs.Feeding.{poured, left, kept, started, fed_of, finished_of};

use crate::block::compress;

// A hash value of five words, and the five working variables of a round.
#[derive(Clone, Copy)]
pub struct Chain {
    pub a: u32,
    pub b: u32,
    pub c: u32,
    pub d: u32,
    pub e: u32,
}

// A message under way: the hash value after its whole blocks, the octets since, and how many octets there were in all.
// Kept: `count` says how far `buffer` is filled, since the C interface hands this state around and the library has no heap.
#[derive(Clone, Copy)]
pub struct Sha {
    pub chain: Chain,
    pub buffer: [u8; 64],
    pub count: u64,
}

// "more than 2^32 - 1 octets" are refused.
const MOST_OCTETS: u64 = 4294967295;

// "PAD" of 5.1.1, in octets: the bit 1, then zero bits, as many as ever come.
fn pad() -> [u8; 64]
    ensures { result ≡ 128 ∷ zeros 63 }
{
    let mut p = [0u8; 64];
    p[0] = 128;
    p
}

// The first `k` octets of a buffer, then those of the part as far as there is room, then zeros.
fn filled(b: [u8; 64], k: usize, part: &[u8]) -> [u8; 64]
    requires { k < 64 }
    ensures { result ≡ kept (take k b ++ part.now) }
{
    let n = part.len().min(64 - k);
    let mut r = [0u8; 64];
    r[..k].copy_from_slice(&b[..k]);
    r[k..k + n].copy_from_slice(&part[..n]);
    r
}

// The hash value after the whole blocks of `part`, which are taken from it where they stand, and the octets behind them.
fn blocks_of<'a>(h: Chain, part: &'a [u8], w: &mut [u32; 80]) -> (Chain, &'a [u8])
    ensures chain { result.0 ≡ poured h part.now }
    ensures rest { result.1.now ≡ left part.now }
{
    let mut c = h;
    let mut rest = part;
    while let Some((block, behind)) = rest.split_first_chunk::<64>() {
        c = compress(c, block, &mut *w);
        rest = behind;
    }
    (c, rest)
}

// The hash value after the first `k` octets of the buffer and those of the part: a block that the buffer begins, then the part's own. And what stays in the
// buffer then: the octets behind the last whole block, and zeros.
fn absorb(h: Chain, b: [u8; 64], k: usize, part: &[u8]) -> (Chain, [u8; 64])
    requires { k < 64 }
    ensures chain { result.0 ≡ poured h (take k b ++ part.now) }
    ensures buffer { result.1 ≡ kept (left (take k b ++ part.now)) }
{
    let room = 64 - k;
    let f = filled(b, k, part);
    if part.len() < room {
        return (h, f);
    }
    let mut w = [0u32; 80];
    let c = compress(h, &f, &mut w);
    let (d, rest) = blocks_of(c, &part[room..], &mut w);
    (d, filled(b, 0, rest))
}

// No octets yet.
pub fn start() -> Sha
    ensures { result ≡ started }
{
    Sha {
        chain: Chain {
            a: 0x67452301,
            b: 0xefcdab89,
            c: 0x98badcfe,
            d: 0x10325476,
            e: 0xc3d2e1f0,
        },
        buffer: [0u8; 64],
        count: 0,
    }
}

// The state with the octets of `part` behind those that were there; none where more than 2^32 - 1 octets would be fed.
pub fn feed(st: Sha, part: &[u8]) -> Option<Sha>
    ensures { result ≡ fed_of st part.now }
{
    let count = st.count.checked_add(part.len() as u64)?;
    if MOST_OCTETS < count {
        return None;
    }
    let (chain, buffer) = absorb(st.chain, st.buffer, (st.count % 64) as usize, part);
    Some(Sha {
        chain,
        buffer,
        count,
    })
}

// The length of n octets in bits, as 64 bits.
fn length_octets(n: u64) -> [u8; 8]
    ensures { result ≡ eight (8 * n) }
{
    let l = n << 3;
    l.to_be_bytes()
}

fn digest_octets(h: Chain) -> [u8; 20]
    ensures { result ≡ output h }
{
    let mut out = [0u8; 20];
    out[..4].copy_from_slice(&h.a.to_be_bytes());
    out[4..8].copy_from_slice(&h.b.to_be_bytes());
    out[8..12].copy_from_slice(&h.c.to_be_bytes());
    out[12..16].copy_from_slice(&h.d.to_be_bytes());
    out[16..].copy_from_slice(&h.e.to_be_bytes());
    out
}

// The digest of the octets fed: they are padded, and the padding is hashed behind them.
pub fn finish(st: Sha) -> [u8; 20]
    ensures { result ≡ finished_of st }
{
    let n = st.count;
    let k = (n % 64) as usize;
    let e = (119 - k) % 64 + 1;
    let (c, d) = absorb(st.chain, st.buffer, k, &pad()[..e]);
    let (h, _) = absorb(c, d, 56, &length_octets(n));
    digest_octets(h)
}
