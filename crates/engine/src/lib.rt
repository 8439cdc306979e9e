// The entries as C functions: nothing but calls; and the version. include/hitac.h declares them for C.
#![tactic(auto)]

ghost use Rattle.std.specs.Prelude.{◌≡◌, ◌+◌, ◌*◌};
ghost use Rattle.entries.specs.Check as entry;
ghost use Rattle.entries.specs.CheckFlat.{check_flat, write_proof};
ghost use Rattle.entries.specs.Halting.{run_halting, resume_run};
ghost use Rattle.entries.specs.Run.{run_tactic};
ghost use Rattle.entries.specs.Search.{search_tactic};
ghost use Rattle.entries.specs.Texts.{read_text, write_text};
ghost use Rattle.engine.specs.Version.{version_major, version_minor};

use answers::Answer;
use checker::check::check;
use derivation::check::check_flat;
use flattener::flatten::flatten;
use halting::entry::{resume, run_halting};
use lent_frames::LentFrame;
use runner::entry::run;
use searcher::entry::search;
use text_reader::entry::read_text;
use text_writer::entry::write_text;
use writer::entry::write_proof;

// The minor number goes up with each new call, and with new sizes of one; the major number when every program must be compiled anew.
const MAJOR: u32 = 2;

const MINOR: u32 = 3;

// Whether the proof is accepted in the table.
#[unsafe(no_mangle)]
pub extern "C" fn hitac_check(table: &[u8], proof: &[u8], work: &mut [u8]) -> Answer
    ensures answer { result ≡ (entry.check table.now proof.now work.old).answer }
    ensures work { work.new ≡ (entry.check table.now proof.now work.old).work }
{
    check(table, proof, work)
}

// Runs the job's tactic in the table, within the budget: a proof file in the output space.
#[unsafe(no_mangle)]
pub extern "C" fn hitac_run(
    table: &[u8],
    job: &[u8],
    budget: u32,
    work: &mut [u8],
    out: &mut [u8],
) -> Answer
    ensures answer { result ≡ (run_tactic table.now job.now budget work.old out.old).answer }
    ensures work { work.new ≡ (run_tactic table.now job.now budget work.old out.old).work }
    ensures out { out.new ≡ (run_tactic table.now job.now budget work.old out.old).out }
{
    run(table, job, budget, work, out)
}

// Flattens an accepted proof: a flat file in the output space.
#[unsafe(no_mangle)]
pub extern "C" fn hitac_flatten(
    table: &[u8],
    proof: &[u8],
    work: &mut [u8],
    out: &mut [u8],
) -> Answer
    ensures answer { result ≡ (entry.flatten table.now proof.now work.old out.old).answer }
    ensures work { work.new ≡ (entry.flatten table.now proof.now work.old out.old).work }
    ensures out { out.new ≡ (entry.flatten table.now proof.now work.old out.old).out }
{
    flatten(table, proof, work, out)
}

// Whether the flat derivation is right in the table.
#[unsafe(no_mangle)]
pub extern "C" fn hitac_check_flat(table: &[u8], flat: &[u8], work: &mut [u8]) -> Answer
    ensures answer { result ≡ (check_flat table.now flat.now work.old).answer }
    ensures work { work.new ≡ (check_flat table.now flat.now work.old).work }
{
    check_flat(table, flat, work)
}

// Writes a right derivation as a proof: a proof file in the output space.
#[unsafe(no_mangle)]
pub extern "C" fn hitac_write_proof(
    table: &[u8],
    flat: &[u8],
    work: &mut [u8],
    out: &mut [u8],
) -> Answer
    ensures answer { result ≡ (write_proof table.now flat.now work.old out.old).answer }
    ensures work { work.new ≡ (write_proof table.now flat.now work.old out.old).work }
    ensures out { out.new ≡ (write_proof table.now flat.now work.old out.old).out }
{
    write_proof(table, flat, work, out)
}

// Reads a text of the notation: a term file in the output space.
#[unsafe(no_mangle)]
pub extern "C" fn hitac_read_text(text: &[u8], work: &mut [u8], out: &mut [u8]) -> Answer
    ensures answer { result ≡ (read_text text.now work.old out.old).answer }
    ensures work { work.new ≡ (read_text text.now work.old out.old).work }
    ensures out { out.new ≡ (read_text text.now work.old out.old).out }
{
    read_text(text, work, out)
}

// Writes the text of a term file into the output space.
#[unsafe(no_mangle)]
pub extern "C" fn hitac_write_text(term: &[u8], work: &mut [u8], out: &mut [u8]) -> Answer
    ensures answer { result ≡ (write_text term.now work.old out.old).answer }
    ensures work { work.new ≡ (write_text term.now work.old out.old).work }
    ensures out { out.new ≡ (write_text term.now work.old out.old).out }
{
    write_text(term, work, out)
}

// Searches the evaluations of the job's tactic in the table, of that height at most and within the budget: a proof file in the output space.
#[unsafe(no_mangle)]
pub extern "C" fn hitac_search(
    table: &[u8],
    job: &[u8],
    height: u32,
    budget: u32,
    work: &mut [u8],
    out: &mut [u8],
) -> Answer
    ensures answer { result ≡ (search_tactic table.now job.now height budget work.old out.old).answer }
    ensures work { work.new ≡ (search_tactic table.now job.now height budget work.old out.old).work }
    ensures out { out.new ≡ (search_tactic table.now job.now height budget work.old out.old).out }
{
    search(table, job, height, budget, work, out)
}

// Runs the job's tactic in the table, within the budget: a proof file in the output space, or at a halt the saved state in the second space.
#[unsafe(no_mangle)]
pub extern "C" fn hitac_run_halting(
    table: &[u8],
    job: &[u8],
    budget: u32,
    work: &mut [u8],
    frames: &mut [LentFrame],
    out: &mut [u8],
    state: &mut [u8],
) -> Answer
    ensures answer { result ≡ (run_halting table.now job.now budget work.old frames.old out.old state.old).answer }
    ensures work { work.new ≡ (run_halting table.now job.now budget work.old frames.old out.old state.old).work }
    ensures frames { frames.new ≡ (run_halting table.now job.now budget work.old frames.old out.old state.old).frames }
    ensures out { out.new ≡ (run_halting table.now job.now budget work.old frames.old out.old state.old).out }
    ensures state { state.new ≡ (run_halting table.now job.now budget work.old frames.old out.old state.old).state }
{
    run_halting(table, job, budget, work, frames, out, state)
}

// Goes on from a saved state, within the budget: a proof file in the output space, or at a halt the next saved state in the second space.
#[unsafe(no_mangle)]
pub extern "C" fn hitac_resume(
    table: &[u8],
    job: &[u8],
    saved: &[u8],
    budget: u32,
    work: &mut [u8],
    frames: &mut [LentFrame],
    out: &mut [u8],
    state: &mut [u8],
) -> Answer
    ensures answer { result ≡ (resume_run table.now job.now saved.now budget work.old frames.old out.old state.old).answer }
    ensures work { work.new ≡ (resume_run table.now job.now saved.now budget work.old frames.old out.old state.old).work }
    ensures frames { frames.new ≡ (resume_run table.now job.now saved.now budget work.old frames.old out.old state.old).frames }
    ensures out { out.new ≡ (resume_run table.now job.now saved.now budget work.old frames.old out.old state.old).out }
    ensures state { state.new ≡ (resume_run table.now job.now saved.now budget work.old frames.old out.old state.old).state }
{
    resume(table, job, saved, budget, work, frames, out, state)
}

// The version of the library: the major number times 65,536, and the minor number.
#[unsafe(no_mangle)]
pub extern "C" fn hitac_version() -> u32
    ensures { result ≡ version_major * 65536 + version_minor }
{
    MAJOR * 65536 + MINOR
}
