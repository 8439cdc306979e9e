// The check program: reads table.kit and proof.hip from the current directory, checks the proof and prints one line.
// Document 01, "A table and its edges": the check program; document 02, P7: a proof.hip that cannot be opened.
#![tactic(auto)]

ghost use Rattle.std.specs.Prelude.{◌≡◌};
ghost use Rattle.io.specs.Counts.{IsPrefixLen};
ghost use Rattle.entries.specs.CheckProgram.{check_program};
ghost use Rattle.entries.specs.PrintedLine.{printed_line};
ghost use Rattle.check_kit.specs.Line.{Puts};

mod line;
mod load;

use answers::Answer;
use checker::check::check;
use line::put_line;
use load::load;
use std::io::Print;
use std::rt::Files;

// The answer whose line is printed. Without a proof it is that of a proof of one byte, which is 2 at place 0 once the table is read.
fn answer_for(table: &[u8], proof: &[u8], opened: bool, work: &mut [u8]) -> Answer
    ensures value { result ≡ (check_program table.now proof.now opened work.old).answer }
    ensures work_after { work.new ≡ (check_program table.now proof.now opened work.old).work }
{
    if opened {
        check(table, proof, work)
    } else {
        let torn = [0u8; 1];
        check(table, &torn, work)
    }
}

// Checks a proof in a table, if proof.hip was opened, and puts the line of the answer at the start of a lent space; gives the line's length. The longest line has 76 bytes.
// `opened` stands beside the bytes, as in check_program, by which this promise is stated.
pub fn check_line(
    table: &[u8],
    proof: &[u8],
    opened: bool,
    work: &mut [u8],
    line: &mut [u8; 80],
) -> usize
    ensures puts { Puts line.old 0 (printed_line (check_program table.now proof.now opened work.old).answer) line.new result }
    ensures work_after { work.new ≡ (check_program table.now proof.now opened work.old).work }
{
    let answer = answer_for(table, proof, opened, work);
    put_line(line, answer)
}

// The whole program: loads both files, and writes the line of check_line once. A table.kit that cannot be opened counts as zero bytes; of proof.hip check_line is told whether it was opened.
// What the system reads and writes is outside the logic, so that no contract says it.
pub fn run(rt: &(impl Files + Print)) -> std::io::Result<()> {
    let mut table = [0u8; 65536];
    let mut proof = [0u8; 65536];
    let mut work = [0u8; 65536];
    let mut line = [0u8; 80];
    let t = load(rt, "table.kit", &mut table).unwrap_or(0);
    let hip = load(rt, "proof.hip", &mut proof);
    let p = hip.unwrap_or(0);
    let n = check_line(
        &table[..t],
        &proof[..p],
        hip.is_some(),
        &mut work,
        &mut line,
    );
    rt.write_all(&line[..n])
}
