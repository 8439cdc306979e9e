// Replays vector files against the engine, and prints what was compared.
#![tactic(auto)]

ghost use Rattle.std.specs.Prelude.{◌+◌, ◌≤◌, length};
ghost use Rattle.io.specs.Counts.{IsPrefixLen};

pub mod calls;
pub mod findings;
pub mod lent;
pub mod records;
pub mod steps;
pub mod tally;

use std::fs::File;
use std::io::{Print, Read};
use std::rt::Files;
use steps::replay;
use tally::Tally;

// The longest vector file has some 551,000 bytes. One that does not fit is cut off, and counts as damaged.
const VECTORS: usize = 655360;

// Longer than any file that a vector file of the fixed set gives.
const SPACE: usize = 73728;

// Longer than any work space that a case of the fixed set lends; search's is the longest.
const WORK: usize = 2768896;

// One read, behind the bytes read so far: how many bytes came; none where it fails.
fn read_more(file: &mut impl Read, buf: &mut [u8], from: usize) -> usize
    requires { from ≤ length buf.old }
    ensures { from + result ≤ length buf.old }
{
    let rest = &mut buf[from..];
    file.read(rest).unwrap_or(0)
}

// Reads until buf is full, the file ends or a read fails.
fn read_full(file: &mut impl Read, buf: &mut [u8]) -> usize
    ensures { IsPrefixLen result buf.new }
{
    let mut count: usize = 0;
    while count < buf.len() {
        let more = read_more(file, buf, count);
        if more == 0 {
            break;
        }
        count += more;
    }
    count
}

// The file's bytes at the start of buf, and how many; none where it cannot be opened.
fn load(rt: &impl Files, path: &str, buf: &mut [u8]) -> usize
    ensures { IsPrefixLen result buf.new }
{
    match File::open(rt, path) {
        Ok(mut file) => read_full(&mut file, buf),
        Err(_) => 0,
    }
}

// Bytes on the standard output. What cannot be written is let go, as the counts go on.
pub fn print(rt: &impl Print, text: &[u8]) {
    let _ = rt.write_all(text);
}

// The line of a vector file.
fn print_tally(rt: &impl Print, name: &str, tally: Tally) {
    let Tally {
        cases,
        reading,
        calls,
        skipped,
        differences,
    } = tally;
    let _ = println!(rt;
        "{name} cases {cases} reading {reading} calls {calls} skipped {skipped} differences {differences}"
    );
}

// Replays a vector file of the current directory, prints its line, and gives the differences. A file that cannot be opened is damaged.
fn replay_in(
    rt: &(impl Files + Print),
    name: &str,
    vectors: &mut [u8],
    table: &mut [u8],
    other: &mut [u8],
    work: &mut [u8],
) -> u64
    ensures { result ≤ 1000001 }
{
    let n = load(rt, name, vectors);
    let tally = replay(rt, name.as_bytes(), &vectors[..n], table, other, work);
    print_tally(rt, name, tally);
    tally.differences
}

// The same in arrays, which come by reference so that their lengths are known from their types: the prover could hardly count so many bytes.
fn replay_in_arrays(
    rt: &(impl Files + Print),
    name: &str,
    vectors: &mut [u8; VECTORS],
    table: &mut [u8; SPACE],
    other: &mut [u8; SPACE],
    work: &mut [u8; WORK],
) -> u64
    ensures { result ≤ 1000001 }
{
    replay_in(rt, name, vectors, table, other, work)
}

// The same in arrays of its own.
fn replay_file(rt: &(impl Files + Print), name: &str) -> u64
    ensures { result ≤ 1000001 }
{
    let mut vectors = [0u8; VECTORS];
    let mut table = [0u8; SPACE];
    let mut other = [0u8; SPACE];
    let mut work = [0u8; WORK];
    replay_in_arrays(rt, name, &mut vectors, &mut table, &mut other, &mut work)
}

// The vector files of the fixed set.
const FILES: [&str; 16] = [
    "read-table.vec",
    "read-proof.vec",
    "read-job.vec",
    "read-flat.vec",
    "check.vec",
    "flatten.vec",
    "check-flat.vec",
    "write-proof.vec",
    "run.vec",
    "read-text.vec",
    "write-text.vec",
    "search.vec",
    "reasons.vec",
    "no-bytes.vec",
    "rules.vec",
    "longer.vec",
];

// The whole program.
pub fn run(rt: &(impl Files + Print)) {
    let mut differences = 0;
    for name in FILES {
        differences += replay_file(rt, name);
    }
    let _ = println!(rt; "all differences {differences}");
}
