// The words of a command line, parted by exactly one space: octets in lower-case hex, where `-` is the empty string, and numbers.
#![tactic(auto)]

ghost use Rattle.std.specs.Prelude.{◌≡◌, ℕ, ◌+◌, ◌<◌, ◌≤◌, ◌↔◌, List, [], ◌∷◌, length, IfOk, IfSome, IsOk, IsErr, IsNone, IsTrue};
ghost use Rattle.commands.specs.Lines.{words, words_left};

use std::marker::Model;
use std::mem;
use syntax::content::digits_value;

// A word is bad or missing, or there is one too many.
#[derive(Clone, Copy, Debug, PartialEq, Eq)]
pub struct Bad;

// What is left of a line, and of the room for what its words stand for. Clauses see the words that are left.
#[derive(Drop)]
pub struct Words<'l, 'r> {
    // None: the last word was read.
    left: Option<&'l [u8]>,
    room: &'r mut [u8],
}

impl<'l, 'r> Model for Words<'l, 'r> {
    ghost Value = { List (List ℕ) };

    ghost view = { λ w. words_left w.left };
}

impl<'l, 'r> Words<'l, 'r> {
    // A line has at least one word, which may be empty, and so has what is behind a space.
    pub fn new(line: &'l [u8], room: &'r mut [u8]) -> Self
        ensures { result ≡ words line.now }
    {
        Words {
            left: Some(line),
            room,
        }
    }

    pub fn is_over(&self) -> bool
        ensures { IsTrue result ↔ (self.now ≡ []) }
    {
        self.left.is_none()
    }

    pub fn end(&self) -> Result<(), Bad>
        ensures { IsOk result ↔ (self.now ≡ []) }
    {
        if self.is_over() { Ok(()) } else { Err(Bad) }
    }

    fn next(&mut self) -> Option<&'l [u8]>
        ensures next { IfSome result (λ w. self.old ≡ w.now ∷ self.new) }
        ensures over { IsNone result ↔ (self.old ≡ []) }
    {
        let left = self.left?;
        match left.iter().position(|b| *b == b' ') {
            Some(end) => {
                self.left = Some(&left[end + 1..]);
                Some(&left[..end])
            }
            None => {
                self.left = None;
                Some(left)
            }
        }
    }

    // The next word as it stands.
    pub fn word(&mut self) -> Result<&'l [u8], Bad>
        ensures next { IfOk result (λ w. self.old ≡ w.now ∷ self.new) }
        ensures over { IsErr result ↔ (self.old ≡ []) }
    {
        self.next().ok_or(Bad)
    }

    fn taken(&mut self, count: usize) -> Result<&'r mut [u8], Bad>
        ensures { self.new ≡ self.old }
    {
        let room = mem::take(&mut self.room);
        if room.len() < count {
            return Err(Bad);
        }
        let (taken, rest) = room.split_at_mut(count);
        self.room = rest;
        Ok(taken)
    }

    // The octets that the next word stands for.
    pub fn octets(&mut self) -> Result<&'r [u8], Bad>
        ensures next { IsOk result → length self.old ≡ length self.new + 1 }
    {
        let word = self.word()?;
        let pairs = pairs(word)?;
        let octets = self.taken(pairs.len() / 2)?;
        decode(pairs, octets)?;
        Ok(octets)
    }

    // The next word, where it is a number of 1 to 15 digits. They take room too, so a line is bad where all that it gives is more than that.
    fn digits(&mut self) -> Result<&'l [u8], Bad>
        ensures next { IsOk result → length self.old ≡ length self.new + 1 }
    {
        let word = self.word()?;
        digits_value(word, b' ').ok_or(Bad)?;
        self.taken(word.len())?;
        Ok(word)
    }

    // The number that the next word gives.
    pub fn number(&mut self) -> Result<u64, Bad>
        ensures next { IsOk result → length self.old ≡ length self.new + 1 }
    {
        let word = self.digits()?;
        Ok(number_of(word))
    }

    // The length that the next word gives.
    pub fn capacity(&mut self, all: usize) -> Result<usize, Bad>
        ensures next { IsOk result → length self.old ≡ length self.new + 1 }
        ensures most { IfOk result (λ most. most ≤ all) }
    {
        let word = self.digits()?;
        Ok(capacity(word, all))
    }
}

// The number that the digits of a word give.
pub fn number_of(w: &[u8]) -> u64 {
    digits_value(w, b' ').unwrap_or(0)
}

// The length that the digits of a word give. More than there is, is as good as all of it.
pub fn capacity(w: &[u8], all: usize) -> usize
    ensures { result ≤ all }
{
    let number = number_of(w);
    if number < all as u64 {
        number as usize
    } else {
        all
    }
}

// The hex digits of a word. An empty word is no word: the line has one word too few.
fn pairs(word: &[u8]) -> Result<&[u8], Bad> {
    if word == b"-".as_slice() {
        return Ok(&[]);
    }
    if word.is_empty() || word.len() % 2 == 1 {
        return Err(Bad);
    }
    Ok(word)
}

fn decode(pairs: &[u8], octets: &mut [u8]) -> Result<(), Bad> {
    for (octet, pair) in octets.iter_mut().zip(pairs.chunks_exact(2)) {
        *octet = digit(pair[0])? * 16 + digit(pair[1])?;
    }
    Ok(())
}

fn digit(b: u8) -> Result<u8, Bad>
    ensures { IfOk result (λ d. d < 16) }
{
    match b {
        b'0'..=b'9' => Ok(b - b'0'),
        b'a'..=b'f' => Ok(b - b'a' + 10),
        _ => Err(Bad),
    }
}
