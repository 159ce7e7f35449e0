// Where the parts of the open message stand, kept while the judge walks over its segments.
ghost use Rattle.std.specs.Prelude.{◌≡◌, false, ◌<◌};
ghost use Rattle.message.specs.declared.Group.TheVariants.{Opened, Header as InHeader, Body as InBody, Trailer as InTrailer};
ghost use Rattle.walk.specs.Layout.{spot_step, row_step, RowRoom};

use message::{Group, Message};

// Its UNH, its first header group, its body, its first trailer group, each behind what comes before it; and how many trailers it has.
#[derive(Clone, Copy)]
pub struct Spots {
    pub unh: usize,
    pub heads: usize,
    pub body: usize,
    pub tail: usize,
    pub trailers: usize,
}

// A message from `at`, whose UNH ends before `next`, and nothing behind it.
pub fn opened(at: usize, next: usize) -> Spots
    ensures { (x : Spots) → result ≡ spot_step Opened x at next }
{
    Spots {
        unh: at,
        heads: next,
        body: next,
        tail: next,
        trailers: 0,
    }
}

// A header group has grown to `next`: the body, and what is behind it, starts there.
fn headed(x: Spots, next: usize) -> Spots
    ensures { result ≡ spot_step (InHeader 0) x 0 next }
{
    Spots {
        body: next,
        tail: next,
        ..x
    }
}

// The body has grown to `next`.
fn bodied(x: Spots, next: usize) -> Spots
    ensures { result ≡ spot_step InBody x 0 next }
{
    Spots { tail: next, ..x }
}

// One trailer group more.
fn trailed(x: Spots) -> Spots
    requires { x.trailers < 9 }
    ensures { result ≡ spot_step (InTrailer false) x 0 0 }
{
    Spots {
        trailers: x.trailers + 1,
        ..x
    }
}

// The spots after the segment from `at` to `next`, by the group that it leaves open in the message `m`. In `rows` it is noted where each group starts:
// header i at i, trailer j at 9 + j.
pub fn spotted(x: Spots, rows: &mut [usize; 18], m: Message, at: usize, next: usize) -> Spots
    requires { RowRoom m.group m.headers x.trailers }
    ensures value { result ≡ spot_step m.group x at next }
    ensures rows_after { rows.new ≡ row_step m.group rows.old m.headers x.trailers at }
{
    let g = m.group;
    let headers = m.headers as usize;
    let trailers = x.trailers;
    match g {
        Group::Opened => opened(at, next),
        Group::Header(usa) => {
            if usa == 0 {
                rows[headers - 1] = at;
            }
            headed(x, next)
        }
        Group::Certificate(_, _, _) => headed(x, next),
        Group::Body => bodied(x, next),
        Group::Ack(_, _) => bodied(x, next),
        Group::Trailer(usr) => {
            if usr {
                return x;
            }
            rows[9 + trailers] = at;
            trailed(x)
        }
    }
}
