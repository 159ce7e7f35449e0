#![tactic(auto)]

// SHA-1 run on FIPS's messages, a digest a line: the empty one, "abc", those of 448 and of 896 bits, one million `a`; then whether every cutting in two, the cutting in single
// octets and the limit of 2^32 - 1 octets are as they should be; last the digest of standard input, fed as it comes.
use input::read_full;
use printing::Hex;
use sha::Sha;

// What cannot be written is lost, and nothing stops for it.
fn show(rt: &impl Print, d: [u8; 20]) {
    let _ = println!(rt; "{}", Hex(&d));
}

fn tell(rt: &impl Print, what: &str, holds: bool) {
    let answer = if holds { "yes" } else { "NO" };
    let _ = println!(rt; "{what}: {answer}");
}

// The state with the octets of the part; as it was, where they are too many.
fn fed(state: Sha, part: &[u8]) -> Sha {
    sha::feed(state, part).unwrap_or(state)
}

fn whole(s: &[u8]) -> [u8; 20] {
    sha::finish(fed(sha::start(), s))
}

// The digest of two parts, joined.
fn in_two(parts: (&[u8], &[u8])) -> [u8; 20] {
    sha::finish(fed(fed(sha::start(), parts.0), parts.1))
}

fn every_cut(s: &[u8]) -> bool {
    let d = whole(s);
    (0..=s.len()).all(|cut| in_two(s.split_at(cut)) == d)
}

fn in_octets(s: &[u8]) -> [u8; 20] {
    sha::finish(s.chunks(1).fold(sha::start(), fed))
}

// The digest of the part, fed so many times.
fn repeated(part: &[u8], times: usize) -> [u8; 20] {
    let mut state = sha::start();
    for _ in 0..times {
        state = fed(state, part);
    }
    sha::finish(state)
}

fn million() -> [u8; 20] {
    let part = [b'a'; 1000];
    repeated(&part, 1000)
}

// A state as if 2^32 - 4 octets had been fed: three more are taken, four are not.
fn holds_limit() -> bool {
    let s = sha::start();
    let h = s.chain;
    let b = s.buffer;
    let full = Sha {
        chain: h,
        buffer: b,
        count: 4294967292,
    };
    sha::feed(full, b"abcd").is_none() && sha::feed(full, b"abc").is_some()
}

// What is left of standard input, fed to a state. A proved loop has to end, and nothing says that the input does: so the loop has more turns than any run uses up.
fn digest_of_input(rt: &impl Input) -> [u8; 20] {
    let mut s = sha::start();
    for _ in 0..u64::MAX {
        let mut chunk = [0u8; 65536];
        let n = read_full(&mut rt.reader(), &mut chunk);
        if n == 0 {
            return sha::finish(s);
        }
        s = fed(s, &chunk[..n]);
    }
    sha::finish(s)
}

fn main(rt: HostRuntime) {
    let medium = b"abcdbcdecdefdefgefghfghighijhijkijkljklmklmnlmnomnopnopq";
    let long =
        b"abcdefghbcdefghicdefghijdefghijkefghijklfghijklmghijklmnhijklmnoijklmnopjklmnopqklmnopqrlmnopqrsmnopqrstnopqrstu";
    show(&rt, whole(b""));
    show(&rt, whole(b"abc"));
    show(&rt, whole(medium));
    show(&rt, whole(long));
    show(&rt, million());
    tell(
        &rt,
        "every cutting in two gives the same",
        every_cut(medium),
    );
    tell(
        &rt,
        "and so do single octets",
        in_octets(long) == whole(long),
    );
    tell(&rt, "2^32 - 1 octets are the most", holds_limit());
    show(&rt, digest_of_input(&rt));
}
