// The content of a component, some octets at a time. Nothing is copied.
ghost use Rattle.std.specs.Prelude.{◌≡◌, ◌<◌, eqb, length, drop};
ghost use Rattle.syntax.specs.Content.{content};
ghost use Rattle.filters.specs.Pieces.{PieceAt};

use syntax::content::next_octet;

// The next N octets of content, and the place after them; or fewer are left, or none.
// Kept: an enum for three ends, since a `Result` of an `Option` would be taken apart twice at each call.
#[derive(Clone, Copy)]
pub enum Piece<const N: usize> {
    Of([u8; N], usize),
    Short,
    Over,
}

pub fn is_over(x: &[u8], i: usize, release: u8) -> bool
    ensures { result ≡ eqb (length (content release (drop i x.now))) 0 }
{
    next_octet(x, i, release).is_none()
}

pub fn next_piece<const N: usize>(x: &[u8], i: usize, release: u8) -> Piece<N>
    requires { 0 < N }
    ensures { PieceAt N release x.now i result }
{
    let mut octets = [0u8; N];
    let mut j = i;
    for (k, slot) in octets.iter_mut().enumerate() {
        let Some((b, next)) = next_octet(x, j, release) else {
            return if k == 0 { Piece::Over } else { Piece::Short };
        };
        *slot = b;
        j = next;
    }
    Piece::Of(octets, j)
}
