// The grammar of interchanges and the verdict on octets: definitions in specs/. Of code only what it shares with them.
#![tactic(auto)]

ghost use Rattle.std.specs.Prelude.{◌≡◌};
ghost use Rattle.grammar.specs.Rules.{is_autack, is_gs1};

// The subset of AUTACK that a message is written by, F01 or that of GS1. A message that is no AUTACK has none.
#[derive(Clone, Copy)]
pub enum Subset {
    F01,
    Gs1,
}

// Whether it is an AUTACK.
pub fn is_autack(x: Option<Subset>) -> bool
    ensures { result ≡ is_autack x }
{
    x.is_some()
}

// Whether it is the subset of GS1.
pub fn is_gs1(x: Option<Subset>) -> bool
    ensures { result ≡ is_gs1 x }
{
    matches!(x, Some(Subset::Gs1))
}
