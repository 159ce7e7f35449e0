#![tactic(auto)]

// The report on an interchange on standard input, on standard output.
use input::{drain, read_full};
use listing::text::listing;
use syntax::content::part;

// The buffer is long enough for every text, as `listing` reckons, so it is never refused. What cannot be written is lost.
fn tell(rt: &impl Print, s: &[u8]) {
    let mut out = [0u8; 131072];
    if let Ok(n) = listing(s, &mut out) {
        let _ = rt.write_all(part(&out, 0, n));
    }
}

// The buffer has one octet more than an interchange may have, so one that is too long is told.
fn main(rt: HostRuntime) {
    let mut space = [0u8; 65536];
    let n = read_full(&mut rt.reader(), &mut space);
    drain(&rt);
    tell(&rt, &space[..n]);
}
