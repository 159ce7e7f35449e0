// The references of the messages so far, in a search tree: exact, and quick whatever the references are.
ghost use Rattle.std.specs.Prelude.{◌≡◌, ◌+◌, ◌*◌, ◌%◌, ◌≤◌, ◌<◌, length};
ghost use Rattle.syntax.specs.Content.{content};
ghost use Rattle.references.specs.Refs.{full, refs_in, is_named, root_of, WordOf, NameOf, Indexed, Spot, kept, Offered, OfferIs};

use syntax::content::{next_octet, wide};

// Up to seven octets of content as a number, the place after them, and whether no more was met.
#[derive(Clone, Copy)]
struct Word {
    value: u64,
    next: usize,
    over: bool,
}

// A reference as two numbers: its first seven octets and the others.
#[derive(Clone, Copy)]
struct Name {
    head: u64,
    tail: u64,
}

// The octets stand behind a 1, so that other octets, also fewer or more, give another number.
fn word_at(x: &[u8], from: usize, release: u8) -> Word
    ensures { WordOf release x.now from result.value result.next result.over }
{
    let mut i = from;
    let mut v: u64 = 1;
    let mut n: usize = 0;
    while n < 7 {
        match next_octet(x, i, release) {
            Some((b, j)) => {
                v = v * 256 + wide(b);
                i = j;
                n += 1;
            }
            None => {
                return Word {
                    value: v,
                    next: i,
                    over: true,
                };
            }
        }
    }
    Word {
        value: v,
        next: i,
        over: false,
    }
}

// A content of more than 14 octets is no reference, and gets the name that none has.
fn name_of(x: &[u8], release: u8) -> Name
    ensures { NameOf (content release x.now) result.head result.tail }
{
    let a = word_at(x, 0, release);
    if a.over {
        return Name {
            head: a.value,
            tail: 1,
        };
    }
    let b = word_at(x, a.next, release);
    if b.over {
        return Name {
            head: a.value,
            tail: b.value,
        };
    }
    match next_octet(x, b.next, release) {
        None => Name {
            head: a.value,
            tail: b.value,
        },
        Some((_, _)) => Name { head: 0, tail: 0 },
    }
}

// Where the search for a name begins, of `m` slots: any number made of the name will do.
fn root(head: u64, tail: u64, m: usize) -> usize
    requires { (0 < m) × (head < full) × (tail < full) }
    ensures { (result ≡ root_of m head tail) × (result < m) }
{
    ((head + tail) % m as u64) as usize
}

fn bit(v: u64) -> usize
    ensures { (result ≡ v % 2) × (result < 2) }
{
    (v % 2) as usize
}

// Whether reference k has this name.
fn is_named(names: &[u64], k: usize, head: u64, tail: u64) -> bool
    requires { 2 * k + 1 < length names.now }
    ensures { result ≡ is_named names.now k head tail }
{
    if names[2 * k] != head {
        return false;
    }
    names[2 * k + 1] == tail
}

// The slot that holds a reference of this name, or the free one where the way of the name ends. The way goes down by the bits of the two numbers
// in turn: two names part within 114 of them, so no choice of references makes it longer.
fn slot_of(names: &[u64], slots: &[u16], n: usize, head: u64, tail: u64) -> usize
    requires indexed { Indexed names.now slots.now n }
    requires head_lt_full { (head < full) × (tail < full) }
    ensures { Spot names.now slots.now n head tail result }
{
    let m = slots.len() - names.len();
    let mut i = root(head, tail, m);
    let mut a = head;
    let mut b = tail;
    loop {
        let k = usize::from(slots[i]);
        if k == 0 {
            return i;
        }
        let j = k - 1;
        if is_named(names, j, head, tail) {
            return i;
        }
        i = m + 2 * j + bit(a);
        let c = a / 2;
        a = b;
        b = c;
    }
}

// The name is written behind those of `n` references, if there is room: that is certain only at a message's end, as it has two segments.
fn keep(names: &mut [u64], n: usize, head: u64, tail: u64)
    requires { n < 65536 }
    ensures { names.new ≡ kept names.old n head tail }
{
    if 2 * n + 2 <= names.len() {
        names[2 * n] = head;
        names[2 * n + 1] = tail;
    }
}

// Where the way of a reference ends that has the content of `x`: a free slot, and the name is kept behind the `n` that are there; nowhere if one of
// these has the content. `names` holds the two numbers of reference k at 2 * k. `slots` holds, behind as many roots as it is longer, the two slots below
// reference k at 2 * k; a slot holds one more than a reference, or 0.
pub fn offer(release: u8, names: &mut [u64], slots: &[u16], n: usize, x: &[u8]) -> Option<usize>
    requires indexed { Indexed names.old slots.now n }
    requires x_len_bound { length (content release x.now) ≤ 14 }
    ensures { OfferIs names.old slots.now n (content release x.now) result names.new }
{
    let w = name_of(x, release);
    let i = slot_of(names, slots, n, w.head, w.tail);
    if slots[i] != 0 {
        return None;
    }
    keep(names, n, w.head, w.tail);
    Some(i)
}

// The reference that was offered slot `i` becomes reference `n`.
pub fn note(names: &[u64], slots: &mut [u16], n: usize, i: usize)
    requires indexed { Indexed names.now slots.old n }
    requires offered { Offered names.now slots.old n i × (n < 65535) }
    ensures indexed_2 { Indexed names.now slots.new (n + 1) }
    ensures slots_len_unchanged { length slots.new ≡ length slots.old }
{
    slots[i] = n as u16 + 1;
}
