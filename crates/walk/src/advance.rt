// One segment further in the walk.
ghost use Rattle.std.specs.Prelude.{◌≡◌, ℕ, ◌+◌, length};
ghost use Rattle.std.proofs.Math.Seq.{slice};
ghost use Rattle.elements.specs.Kinds.{tag_kind};
ghost use Rattle.elements.specs.declared.Kind.TheVariants.{Ust};
ghost use Rattle.message.specs.Steps.{Sought};
ghost use Rattle.turns.specs.declared.state.Phase.TheVariants.{Busy};
ghost use Rattle.walk.specs.Runs.{Walking, Going, AdvancedIs};

use syntax::Breach;
use syntax::classes::Classes;
use turns::state::{Ahead, State, look, turn};

// The segment at `at` is looked at, read and stepped over.
pub fn advance(
    s: &[u8],
    at: usize,
    t: &Classes,
    st: State,
    marks: &mut [usize],
    heads: &mut [usize; 36],
    names: &mut [u64],
    slots: &mut [u16],
    i: usize,
) -> Result<Ahead, Breach>
    requires going { Going t.now.syntax s.now st heads.old names.old slots.old at marks.old }
    requires sought { st.phase ≡ Busy → tag_kind (slice at (at + 3) s.now) ≡ Ust → Sought t.now.syntax.service s.now at st.message heads.old i }
    ensures by_index { (from : ℕ) (w : Walking t.now.syntax s.now from st heads.old names.old slots.old at) → AdvancedIs w result heads.new names.new slots.new }
    ensures marks_len { length marks.new ≡ 40 }
{
    let g = look(s, at, t, marks);
    let (end, kind) = g.looked?;
    let next = end + 1;
    let state = turn(
        s, at, next, t, st, kind, g.shape, marks, heads, names, slots, i,
    )?;
    Ok(Ahead { state, next, kind })
}
