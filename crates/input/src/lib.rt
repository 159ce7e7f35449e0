#![tactic(auto)]

// Reading, for the programs: standard input and files, and what they read and do not keep.
ghost use Rattle.std.specs.Prelude.{◌≤◌, length};

use std::io::Read;

// One read, of what has come: how many octets now stand at the start of `buf`. A read that fails ends the input.
pub fn read_once(from: &mut impl Read, buf: &mut [u8]) -> usize
    ensures { result ≤ length buf.new }
{
    from.read(buf).unwrap_or(0)
}

// Reads until `buf` is full, the input ends or a read fails: how many octets now stand at the start of `buf`.
pub fn read_full(from: &mut impl Read, buf: &mut [u8]) -> usize
    ensures { result ≤ length buf.new }
{
    let mut done: usize = 0;
    while done < buf.len() {
        let n = read_once(&mut *from, &mut buf[done..]);
        if n == 0 {
            return done;
        }
        done += n;
    }
    done
}

// Reads a part of what is left of the input, and keeps nothing: how many octets there were.
fn read_away(rt: &impl Input) -> usize {
    let mut chunk = [0u8; 65536];
    read_full(&mut rt.reader(), &mut chunk)
}

// Reads to the end of the input, so that whoever sends more than a program keeps can send it all. A proved loop has to end, and
// nothing says that the input does: so the loop has more turns than any run uses up.
pub fn drain(rt: &impl Input) {
    for _ in 0..u64::MAX {
        if read_away(rt) == 0 {
            return;
        }
    }
}
