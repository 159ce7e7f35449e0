// FIPS 180-4's operations on words of 32 bits.
ghost use Rattle.std.specs.Prelude.{◌≡◌, ◌<◌};
ghost use Rattle.sha.specs.Sha.{rotl, plus, ch, parity, maj, word};

// ROTL: x turned left by n places.
// Kept: document 01 names the form for this place, "rotation a helper of the program's own"; so it is no `rotate_left`.
pub fn turned(x: u32, n: u32) -> u32
    requires { (0 < n) × (n < 32) }
    ensures { result ≡ rotl n x }
{
    (x << n) | (x >> (32 - n))
}

// The sum modulo 2^32.
pub fn add(x: u32, y: u32) -> u32
    ensures { result ≡ plus x y }
{
    x.wrapping_add(y)
}

// Ch
pub fn choice(x: u32, y: u32, z: u32) -> u32
    ensures { result ≡ ch x y z }
{
    (x & y) ^ (!x & z)
}

// Parity
pub fn odd_bits(x: u32, y: u32, z: u32) -> u32
    ensures { result ≡ parity x y z }
{
    x ^ y ^ z
}

// Maj
pub fn most(x: u32, y: u32, z: u32) -> u32
    ensures { result ≡ maj x y z }
{
    (x & y) ^ (x & z) ^ (y & z)
}

// Four octets as a word, the first the highest.
pub fn joined(a: u8, b: u8, c: u8, d: u8) -> u32
    ensures { result ≡ word a b c d }
{
    u32::from_be_bytes([a, b, c, d])
}
