// A line of commands as it comes in.
ghost use Rattle.std.specs.Prelude.{◌≡◌, ◌+◌, ◌<◌, ◌≤◌, ℕ, List, [], ◌∷◌, ◌++◌, length, Option, IfSome, IsSomeAnd, IsNone, IsTrue, MatchOption, ◌↔◌};
ghost use Rattle.desk.specs.Kept.{kept};

use std::marker::Model;

// Clauses see its octets, or none where it is too long.
// Kept: an array with a length, as the desk works in fixed memory, without a heap.
#[derive(Drop)]
pub struct Line {
    octets: [u8; 300000],
    // None: it is too long, and not all of its octets were kept.
    taken: Option<usize>,
}

impl Model for Line {
    ghost Value = { Option (List ℕ) };

    ghost view = { λ l. kept l.taken l.octets };

    ghost invariant = { λ l. IfSome l.taken (λ n. n ≤ 300000) };
}

impl Line {
    pub fn new() -> Self
        ensures { result ≡ Some [] }
    {
        Line {
            octets: [0; 300000],
            taken: Some(0),
        }
    }

    // The octets that come next, as many as were read at once.
    pub fn push(&mut self, octets: &[u8])
        ensures kept { IfSome self.old (λ l. length l + length octets.now ≤ 300000 → self.new ≡ Some (l ++ octets.now)) }
        ensures full { IfSome self.old (λ l. 300000 < length l + length octets.now → self.new ≡ None) }
        ensures long { self.old ≡ None → self.new ≡ None }
    {
        match self.taken {
            Some(n) if octets.len() <= 300000 - n => {
                let end = n + octets.len();
                self.octets[n..end].copy_from_slice(octets);
                self.taken = Some(end);
            }
            _ => self.taken = None,
        }
    }

    pub fn clear(&mut self)
        ensures { self.new ≡ Some [] }
    {
        self.taken = Some(0);
    }

    pub fn is_empty(&self) -> bool
        ensures { IsTrue result ↔ (self.now ≡ Some []) }
    {
        matches!(self.octets(), Some([]))
    }

    pub fn octets(&self) -> Option<&[u8]>
        ensures { MatchOption self.now (IsNone result) (λ l. IsSomeAnd result (λ s. s.now ≡ l)) }
    {
        Some(&self.octets[..self.taken?])
    }
}
