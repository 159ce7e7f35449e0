// A segment that was taken up, with what `fields` noted of it.
ghost use Rattle.std.specs.Prelude.{◌≡◌, ◌≤◌};
ghost use Rattle.syntax.specs.Segment.{pieces_at, at_element, components, repeats, component_at, part_of};
ghost use Rattle.elements.specs.Fields.{Marked};

use syntax::Syntax;

// Where it stands, under which syntax it is read, and the marks of its first five elements.
#[derive(Clone, Copy)]
pub struct Segment<'a> {
    pub octets: &'a [u8],
    pub at: usize,
    pub syntax: Syntax,
    pub marks: &'a [usize],
    pub ghost marked: { Marked syntax.service octets.now at marks.now },
}

impl<'a> Segment<'a> {
    // The octets of component `c` of element `p`, empty if it is not there. The marks lie in the input, so its bounds are not tested again.
    pub fn field(&self, p: usize, c: usize) -> &'a [u8]
        requires le_p { (1 ≤ p) × (p ≤ 5) × (c ≤ 2) }
        ensures { result.now ≡ part_of self.now.octets.now (component_at self.now.syntax.service self.now.octets.now self.now.at p c) }
    {
        let b = 8 * (p - 1);
        if self.marks[b] <= c {
            return &self.octets[0..0];
        }
        let e = b + 2 + 2 * c;
        let x = self.marks[e];
        let z = self.marks[e + 1];
        &self.octets[x..z]
    }

    // How many components element `p` has, in its first repeat.
    pub fn parts(&self, p: usize) -> usize
        requires le_p { (1 ≤ p) × (p ≤ 5) }
        ensures { result ≡ components (at_element p (pieces_at self.now.syntax.service self.now.octets.now self.now.at)) }
    {
        self.marks[8 * (p - 1)]
    }

    // Whether element `p` repeats.
    pub fn repeated(&self, p: usize) -> bool
        requires le_p { (1 ≤ p) × (p ≤ 5) }
        ensures { result ≡ repeats (at_element p (pieces_at self.now.syntax.service self.now.octets.now self.now.at)) }
    {
        self.marks[8 * (p - 1) + 1] == 1
    }
}
