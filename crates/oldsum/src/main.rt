#![tactic(auto)]

// How far the old returns were off. For each file of a year, in order: its loads, their exact kilograms, the old sum that it leaves, what it added to
// that, and the difference so far; and then the difference of the year, in kilograms.
//
//     file 1 loads 2775 kilograms 83250000 oldsum 83250000 added 83250000 difference 0
//     year loads 33300 kilograms 999000000 oldsum 999389632 difference 389632
//
// The arguments are the names of the files. An argument `-` stands for the files on standard input, one behind the other; so does no argument at all.
// A file that is refused ends it: `file 2 refused 23 at 0 segment 0`.
ghost use Rattle.std.specs.Prelude.{◌≡◌, ℕ, ◌≤◌, List, [], length, take};

use input::{drain, read_full};
use judge::run::judge;
use printing::{Output, Told};
use returns::sums::{Left, old_sum};
use std::env::{Env, FillError};
use std::fmt::Write;
use std::fs::File;
use std::io::{Error, ErrorKind};
use std::marker::Model;
use syntax::content::part;

// The year so far.
#[derive(Clone, Copy)]
struct Year {
    files: u64,
    single: f32,
    sum: u64,
    loads: u64,
    kilograms: u64,
}

// A file was refused or not read, and that is told: the year is not.
#[derive(Clone, Copy)]
struct Ended;

impl Year {
    // "It starts at zero with the year."
    fn new() -> Self {
        Year {
            files: 0,
            single: 0.0,
            sum: 0,
            loads: 0,
            kilograms: 0,
        }
    }

    // Loads and kilograms stay far below 2^64: no run has so many files.
    fn with_file(self, x: Left) -> Self {
        Year {
            files: self.files.wrapping_add(1),
            single: x.single,
            sum: x.sum,
            loads: self.loads.wrapping_add(x.loads),
            kilograms: self.kilograms.wrapping_add(x.kilograms),
        }
    }
}

fn difference(a: u64, b: u64) -> i128 {
    i128::from(a) - i128::from(b)
}

fn print_year(rt: &impl Print, y: Year) {
    let mut out = Output::new(rt);
    let _ = writeln!(
        out,
        "year loads {} kilograms {} oldsum {} difference {}",
        y.loads,
        y.kilograms,
        y.sum,
        difference(y.sum, y.kilograms)
    );
    out.end();
}

// What a file added, and the difference up to it; `z` is the year with it.
fn print_file(out: &mut Output<impl Print>, y: Year, x: Left, z: Year) {
    let _ = writeln!(
        out,
        "file {} loads {} kilograms {} oldsum {} added {} difference {}",
        z.files,
        x.loads,
        x.kilograms,
        x.sum,
        difference(x.sum, y.sum),
        difference(z.sum, z.kilograms)
    );
}

// One file more.
fn after_file(rt: &impl Print, y: Year, s: &[u8]) -> Result<Year, Ended> {
    let mut out = Output::new(rt);
    let after = match old_sum(s, y.single) {
        Ok(x) => {
            let z = y.with_file(x);
            print_file(&mut out, y, x, z);
            Ok(z)
        }
        Err(refusal) => {
            let _ = writeln!(out, "file {} {}", y.files.wrapping_add(1), Told(refusal));
            Err(Ended)
        }
    };
    out.end();
    after
}

// A line on standard error: what could not be read, and why.
fn unread(rt: &HostRuntime, what: &[u8], why: Error) -> Ended {
    let error = rt.stderr();
    let _ = error.write_all(what);
    let _ = error.print(": ");
    let _ = error.println(why);
    Ended
}

// The file of this name. The buffer has one octet more than an interchange may have, so one that is too long is told.
fn after_path(rt: &HostRuntime, y: Year, path: &[u8]) -> Result<Year, Ended> {
    match opened(rt, path) {
        Ok(file) => after_opened(rt, y, file),
        Err(why) => Err(unread(rt, path, why)),
    }
}

// std knows files by names in UTF-8 alone.
fn opened(rt: &HostRuntime, path: &[u8]) -> Result<File, Error> {
    match str::from_utf8(path) {
        Ok(name) => File::open(rt, name),
        Err(_) => Err(Error::new(ErrorKind::InvalidInput, "the name is not UTF-8")),
    }
}

fn after_opened(rt: &HostRuntime, y: Year, mut file: File) -> Result<Year, Ended> {
    let mut space = [0u8; 65536];
    let n = read_full(&mut file, &mut space);
    after_file(rt, y, &space[..n])
}

// Where the first file ends in `s`: octets after UNZ give 7 at the first of them. All of `s` is one file where it ends nowhere.
fn first_end(s: &[u8]) -> usize {
    match judge(s) {
        Err(f) if f.number == 7 && judge(part(s, 0, f.place)).is_ok() => f.place,
        _ => s.len(),
    }
}

// What was read of standard input and belongs to no file yet. The buffer has as many octets as an interchange may have: what is
// told of a file that is refused must not hang on those of the next ones. So one that is too long is told by its first 65,535
// octets.
// Kept: an array with a length, as the program works in fixed memory, without a heap.
#[derive(Drop)]
struct Waiting {
    octets: [u8; 65535],
    taken: usize,
}

impl Model for Waiting {
    ghost Value = { List ℕ };

    ghost view = { λ w. take w.taken w.octets };

    ghost invariant = { λ w. w.taken ≤ 65535 };
}

impl Waiting {
    fn new() -> Self
        ensures { result ≡ [] }
    {
        Waiting {
            octets: [0; 65535],
            taken: 0,
        }
    }

    // Reads on behind them.
    fn fill(&mut self, rt: &impl Input) {
        self.taken += read_full(&mut rt.reader(), &mut self.octets[self.taken..]);
    }

    fn octets(&self) -> &[u8]
        ensures { result.now ≡ self.now }
    {
        &self.octets[..self.taken]
    }

    // Lets go of the first octets, so many.
    fn let_go(&mut self, count: usize) {
        let from = count.min(self.taken);
        self.octets.copy_within(from..self.taken, 0);
        self.taken -= from;
    }
}

// The files on standard input. A proved loop has to end, and nothing says that the input does: so the loop has more turns than any
// run uses up.
fn after_input(rt: &(impl Input + Print), before: Year) -> Result<Year, Ended> {
    let mut waiting = Waiting::new();
    let mut y = before;
    for _ in 0..u64::MAX {
        waiting.fill(rt);
        let s = waiting.octets();
        if s.is_empty() {
            break;
        }
        let end = first_end(s);
        match after_file(rt, y, part(s, 0, end)) {
            Ok(z) => y = z,
            Err(Ended) => {
                drain(rt);
                return Err(Ended);
            }
        }
        waiting.let_go(end);
    }
    Ok(y)
}

// An argument of more octets than a name may have is not read.
fn after_argument(rt: &HostRuntime, y: Year, i: usize) -> Result<Year, Ended> {
    let mut path = [0u8; 4096];
    match rt.arg(i, &mut path) {
        Ok(length) => after_named(rt, y, &path[..length]),
        Err(_) => Err(unread(
            rt,
            b"argument",
            Error::new(ErrorKind::InvalidFilename, "File name too long"),
        )),
    }
}

fn after_named(rt: &HostRuntime, y: Year, path: &[u8]) -> Result<Year, Ended> {
    if path == b"-".as_slice() {
        return after_input(rt, y);
    }
    after_path(rt, y, path)
}

fn after_arguments(rt: &HostRuntime, count: usize) -> Result<Year, Ended> {
    let mut y = Year::new();
    for i in 1..count {
        y = after_argument(rt, y, i)?;
    }
    Ok(y)
}

fn has_argument(rt: &impl Env, i: usize) -> bool {
    let mut start = [0u8; 1];
    !matches!(rt.arg(i, &mut start), Err(FillError::NotPresent))
}

// How many arguments there are, the program's own name among them.
fn argument_count(rt: &impl Env) -> usize {
    (0..usize::MAX)
        .position(|i| !has_argument(rt, i))
        .unwrap_or(usize::MAX)
}

fn after_all(rt: &HostRuntime) -> Result<Year, Ended> {
    let count = argument_count(rt);
    if count < 2 {
        return after_input(rt, Year::new());
    }
    after_arguments(rt, count)
}

fn main(rt: HostRuntime) {
    if let Ok(y) = after_all(&rt) {
        print_year(&rt, y);
    }
}
