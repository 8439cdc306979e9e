// The replay of a vector file, one record a step.
ghost use Rattle.std.specs.Prelude.{◌+◌, ◌≤◌, ◌<◌, length};
ghost use Rattle.replay.specs.Bounds.{Below, Placed, Sum};

use crate::calls::replay_call;
use crate::findings::replay_reading;
use crate::print;
use crate::records::{
    CASE, CASE_BYTES, Case, END, HEADER, OTHER, SEARCH, TABLE, begins_right, case_bytes, expand,
    load_case, load32,
};
use crate::tally::Tally;
use std::io::Print;

// No vector file is longer.
const LONGEST: usize = 1000000;

// At most so many differing cases of a file are named.
const MOST_NAMED: u64 = 10;

// Where a replay stands: the place of the next record, the sizes of the present table and other file (0 before the first), whether the end record closed the file, and the counts.
#[derive(Clone, Copy)]
pub struct Progress {
    pub at: usize,
    pub table: usize,
    pub other: usize,
    pub ended: bool,
    pub tally: Tally,
}

// Names a case that differs, counted from 0 as the second engine does.
fn print_difference(rt: &impl Print, name: &[u8], number: u64) {
    print(rt, name);
    let _ = println!(rt; " case {number} differs");
}

// The counts with one case more, which is named if it differs.
fn count_case(rt: &impl Print, name: &[u8], before: Tally, case: Tally) -> Tally
    requires { Below before 1000000 × Below case 1 }
    ensures { Sum before case result }
{
    if case.differences != 0 && before.differences < MOST_NAMED {
        print_difference(rt, name, before.cases);
    }
    before.sum(case)
}

// The reading and the call of one case.
fn replay_case(case: Case, table: &[u8], other: &[u8], work: &mut [u8]) -> Tally
    ensures { Below result 1 }
{
    let reading = replay_reading(case.entry, table, other, case.told);
    let call = replay_call(case, table, other, work);
    Tally::one_case(reading, call)
}

// Goes to the end of the vector file. Without an end record there the file counts as damaged.
fn stopped(s: &[u8], p: Progress, ended: bool) -> Progress
    requires { (p.at ≤ length s.now) × Below p.tally p.at }
    ensures { Placed result (length s.now) (length s.now) p.table p.other }
{
    Progress {
        at: s.len(),
        ended,
        ..p
    }
}

// A case record.
fn step_case(
    rt: &impl Print,
    name: &[u8],
    s: &[u8],
    table: &[u8],
    other: &[u8],
    work: &mut [u8],
    p: Progress,
) -> Progress
    requires { (p.at < length s.now) × (length s.now ≤ 1000000) × Placed p 0 (length s.now) (length table.now) (length other.now) }
    ensures { Placed result (p.at + 1) (length s.now) p.table p.other }
{
    let at = p.at;
    if s.len() - at < CASE_BYTES {
        return stopped(s, p, false);
    }
    let entry = s[at + 1];
    let size = case_bytes(entry);
    if s.len() - at < size || entry == 0 || SEARCH < entry {
        return stopped(s, p, false);
    }
    let case = load_case(s, at, entry);
    let counted = replay_case(case, &table[..p.table], &other[..p.other], work);
    Progress {
        at: at + size,
        tally: count_case(rt, name, p.tally, counted),
        ..p
    }
}

// A table record.
fn step_table(s: &[u8], table: &mut [u8], p: Progress) -> Progress
    requires { (p.at < length s.now) × (p.table ≤ length table.old) × Below p.tally p.at }
    ensures { Placed result (p.at + 1) (length s.now) (length table.old) p.other }
{
    match expand(s, p.at, table) {
        Some(file) => Progress {
            at: file.next,
            table: file.size,
            ..p
        },
        None => stopped(s, p, false),
    }
}

// A record of the other file.
fn step_other(s: &[u8], other: &mut [u8], p: Progress) -> Progress
    requires { (p.at < length s.now) × (p.other ≤ length other.old) × Below p.tally p.at }
    ensures { Placed result (p.at + 1) (length s.now) p.table (length other.old) }
{
    match expand(s, p.at, other) {
        Some(file) => Progress {
            at: file.next,
            other: file.size,
            ..p
        },
        None => stopped(s, p, false),
    }
}

// The record at the present place.
fn step(
    rt: &impl Print,
    name: &[u8],
    s: &[u8],
    table: &mut [u8],
    other: &mut [u8],
    work: &mut [u8],
    p: Progress,
) -> Progress
    requires { (p.at < length s.now) × (length s.now ≤ 1000000) × Placed p 0 (length s.now) (length table.old) (length other.old) }
    ensures { Placed result (p.at + 1) (length s.now) (length table.old) (length other.old) }
{
    match s[p.at] {
        TABLE => step_table(s, table, p),
        OTHER => step_other(s, other, p),
        CASE => step_case(rt, name, s, table, other, work, p),
        // Nothing follows an end record.
        kind => stopped(s, p, kind == END && s.len() - p.at == 1),
    }
}

// All records behind the header.
fn replay_records(
    rt: &impl Print,
    name: &[u8],
    s: &[u8],
    table: &mut [u8],
    other: &mut [u8],
    work: &mut [u8],
) -> Progress
    requires { (30 ≤ length s.now) × (length s.now ≤ 1000000) }
    ensures { Below result.tally (length s.now) }
{
    let mut p = Progress {
        at: HEADER,
        table: 0,
        other: 0,
        ended: false,
        tally: Tally::nothing(),
    };
    // A record ends where its own lengths say, so no count of records is known before.
    while p.at < s.len() {
        p = step(rt, name, s, table, other, work, p);
    }
    p
}

// The counts with one difference more, for a vector file that is damaged or needs longer buffers.
fn damaged(rt: &impl Print, name: &[u8], tally: Tally) -> Tally
    requires { Below tally 1000000 }
    ensures { Below result 1000001 }
{
    print(rt, name);
    print(rt, b" is damaged, or gives a file longer than the buffer\n");
    Tally {
        differences: tally.differences + 1,
        ..tally
    }
}

// A whole vector file. The table and the other file are expanded into the lent buffers; cases lend at most the work space.
pub fn replay(
    rt: &impl Print,
    name: &[u8],
    s: &[u8],
    table: &mut [u8],
    other: &mut [u8],
    work: &mut [u8],
) -> Tally
    ensures { Below result 1000001 }
{
    if s.len() < HEADER || LONGEST < s.len() || !begins_right(s) {
        return damaged(rt, name, Tally::nothing());
    }
    let cases = load32(s, 10);
    let p = replay_records(rt, name, s, table, other, work);
    if !p.ended || p.tally.cases != u64::from(cases) {
        return damaged(rt, name, p.tally);
    }
    p.tally
}
