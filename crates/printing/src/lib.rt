#![tactic(auto)]

// Printing to standard output by way of a buffer, for the programs.
ghost use Rattle.std.specs.Prelude.{◌≡◌, ℕ, ◌+◌, ◌*◌, ◌<◌, ◌≤◌, List, [], ◌∷◌, ◌++◌, length, take, codes, decimal, Some};
ghost use Rattle.std.specs.Prelude.{false};
ghost use Rattle.std.specs.Fmt.{digits};
ghost use Rattle.printing.specs.HexText.{hex_text};

use std::fmt::{self, Write};
use std::marker::Model;
use syntax::Refusal;

// What is printed waits here, and is written out where the buffer is full, and by `flush`. What cannot be written is lost, and
// nothing stops for it. Clauses see what waits.
// Kept: an array with a length, as the programs print in fixed memory, without a heap.
pub struct Output<'a, P> {
    to: &'a P,
    octets: [u8; 4096],
    taken: usize,
}

impl<'a, P> Model for Output<'a, P> {
    ghost Value = { List ℕ };

    ghost view = { λ o. take o.taken o.octets };

    ghost invariant = { λ o. o.taken ≤ 4096 };
}

impl<'a, P: Print> Output<'a, P> {
    pub fn new(to: &'a P) -> Self
        ensures { result ≡ [] }
    {
        Output {
            to,
            octets: [0; 4096],
            taken: 0,
        }
    }

    pub fn flush(&mut self)
        ensures { self.new ≡ [] }
    {
        let _ = self.to.write_all(&self.octets[..self.taken]);
        self.taken = 0;
    }

    // Prints what waits. Each output ends with it, so that nothing is forgotten.
    pub fn end(self) {
        let Output { to, octets, taken } = self;
        let _ = to.write_all(&octets[..taken]);
    }

    pub fn put(&mut self, b: u8)
        ensures waits { length self.old < 4096 → self.new ≡ self.old ++ b ∷ [] }
        ensures full { length self.old ≡ 4096 → self.new ≡ b ∷ [] }
    {
        if self.taken == 4096 {
            self.flush();
        }
        self.octets[self.taken] = b;
        self.taken += 1;
    }

    pub fn put_all(&mut self, octets: &[u8])
        ensures waits { length self.old + length octets.now ≤ 4096 → self.new ≡ self.old ++ octets.now }
    {
        if 4096 - self.taken < octets.len() {
            for b in octets {
                self.put(*b);
            }
            return;
        }
        let end = self.taken + octets.len();
        self.octets[self.taken..end].copy_from_slice(octets);
        self.taken = end;
    }
}

// So that `write!` prints here.
impl<'a, P: Print> Write for Output<'a, P> {
    ghost write_str_gives = { λ o s p. length o + length s ≤ 4096 → p ≡ o ++ s };

    fn write_str(&mut self, s: &str) -> fmt::Result {
        self.put_all(s.as_bytes());
        Ok(())
    }
}

fn digit(n: u8) -> u8
    requires { n < 16 }
    ensures { result ∷ [] ≡ digits 16 false n }
{
    if n < 10 { 48 + n } else { 87 + n }
}

// Two digits of hex for each octet, at the front of `text`.
fn spell(octets: &[u8], text: &mut [u8; 128])
    requires { length octets.now ≤ 64 }
    ensures { take (2 * length octets.now) text.new ≡ hex_text octets.now }
{
    for (k, octet) in octets.iter().enumerate() {
        text[2 * k] = digit(octet / 16);
        text[2 * k + 1] = digit(octet % 16);
    }
}

// Octets in lower-case hex.
#[derive(Clone, Copy)]
pub struct Hex<'a>(pub &'a [u8]);

impl fmt::Display for Hex<'_> {
    ghost output = { λ h. Some (hex_text h.0.now) };

    fn fmt<W: fmt::Write>(&self, f: &mut fmt::Formatter<W>) -> fmt::Result {
        // By 64 octets: a `{:x}` for each digit takes five times as long, and the desk prints whole interchanges so.
        let mut i: usize = 0;
        while i < self.0.len() {
            let size = (self.0.len() - i).min(64);
            let mut text = [0u8; 128];
            spell(&self.0[i..i + size], &mut text);
            let Ok(digits) = str::from_utf8(&text[..2 * size]) else {
                return Err(fmt::Error);
            };
            f.write_str(digits)?;
            i += size;
        }
        Ok(())
    }
}

// A refusal for people: `refused 10 at 113 segment 6`.
#[derive(Clone, Copy)]
pub struct Told(pub Refusal);

impl fmt::Display for Told {
    ghost output = { λ t. Some (codes "refused " ++ (decimal t.0.number ++ (codes " at " ++ (decimal t.0.place ++ (codes " segment " ++ decimal t.0.segment))))) };

    fn fmt<W: fmt::Write>(&self, f: &mut fmt::Formatter<W>) -> fmt::Result {
        let Told(r) = *self;
        write!(
            f,
            "refused {} at {} segment {}",
            r.number, r.place, r.segment
        )
    }
}
