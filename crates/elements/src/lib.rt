// What one segment says: its kind, its fields, its checked elements (8), the amount of a load.
#![tactic(auto)]

pub mod amounts;
pub mod fields;
pub mod formed;
pub mod segment;
pub mod subset;

ghost use Rattle.std.specs.Prelude.{◌≡◌, [], ◌∷◌};
ghost use Rattle.elements.specs.Kinds.{tag_kind};

// What a segment is, by its tag.
#[derive(Clone, Copy)]
pub enum Kind {
    Unb,
    Unh,
    Unt,
    Unz,
    Ush,
    Usa,
    Usc,
    Usr,
    Ust,
    Usb,
    Usx,
    Usy,
    Reserved,
    Qty,
    Cnt,
    Other,
}

fn service_kind(b: u8, c: u8) -> Kind
    ensures { result ≡ tag_kind (85 ∷ b ∷ c ∷ []) }
{
    if b == 78 {
        return interchange_kind(c);
    }
    if b == 83 {
        return security_kind(c);
    }
    Kind::Other
}

fn interchange_kind(c: u8) -> Kind
    ensures { result ≡ tag_kind (85 ∷ 78 ∷ c ∷ []) }
{
    if c == 72 {
        return Kind::Unh;
    }
    if c == 84 {
        return Kind::Unt;
    }
    if c == 66 {
        return Kind::Unb;
    }
    if c == 90 {
        return Kind::Unz;
    }
    if c == 65 {
        return Kind::Reserved;
    }
    if c == 71 {
        return Kind::Reserved;
    }
    if c == 69 {
        return Kind::Reserved;
    }
    if c == 79 {
        return Kind::Reserved;
    }
    if c == 80 {
        return Kind::Reserved;
    }
    Kind::Other
}

fn security_kind(c: u8) -> Kind
    ensures { result ≡ tag_kind (85 ∷ 83 ∷ c ∷ []) }
{
    if c == 72 {
        return Kind::Ush;
    }
    if c == 65 {
        return Kind::Usa;
    }
    if c == 67 {
        return Kind::Usc;
    }
    if c == 82 {
        return Kind::Usr;
    }
    if c == 84 {
        return Kind::Ust;
    }
    if c == 66 {
        return Kind::Usb;
    }
    if c == 88 {
        return Kind::Usx;
    }
    if c == 89 {
        return Kind::Usy;
    }
    if c == 68 {
        return Kind::Reserved;
    }
    if c == 85 {
        return Kind::Reserved;
    }
    Kind::Other
}

// The kind of a segment, from its tag: the one place where tags are told apart.
pub fn kind_of(a: u8, b: u8, c: u8) -> Kind
    ensures { result ≡ tag_kind (a ∷ b ∷ c ∷ []) }
{
    if a == 85 {
        return service_kind(b, c);
    }
    if a == 81 {
        if b == 84 {
            if c == 89 {
                return Kind::Qty;
            }
        }
        return Kind::Other;
    }
    if a == 67 {
        if b == 78 {
            if c == 84 {
                return Kind::Cnt;
            }
        }
    }
    Kind::Other
}
