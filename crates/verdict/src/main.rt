#![tactic(auto)]

// For an interchange on standard input: `accepted`, or the refusal with its place and segment.
use input::{drain, read_full};
use judge::run::judge;
use printing::{Output, Told};
use std::fmt::Write;

fn tell(rt: &impl Print, s: &[u8]) {
    let mut out = Output::new(rt);
    let _ = match judge(s) {
        Ok(()) => writeln!(out, "accepted"),
        Err(refusal) => writeln!(out, "{}", Told(refusal)),
    };
    out.end();
}

// The buffer has one octet more than an interchange may have, so one that is too long is told.
fn main(rt: HostRuntime) {
    let mut space = [0u8; 65536];
    let n = read_full(&mut rt.reader(), &mut space);
    drain(&rt);
    tell(&rt, &space[..n]);
}
