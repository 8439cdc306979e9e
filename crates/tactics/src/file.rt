// The proof file of a result.
ghost use Rattle.tactics.specs.File.{FileGiven, FileWritten};

use crate::numbers::put_header;
use format::tags::GOALS_TAG;
use words::copy_in;

// The job's goal list, the hiproof of so many bytes that stands in the work space, and the list of the goals that remain.
pub fn write_file(
    job: &[u8],
    term: usize,
    work: &[u8],
    from: usize,
    bytes: usize,
    start: usize,
    count: usize,
    out: &mut [u8],
)
    requires { FileGiven job.now term work.now from bytes start count out.old }
    ensures { FileWritten job.now term work.now from bytes start count out.old out.new }
{
    let behind = term + bytes;
    copy_in(out, 0, job, 0, term);
    copy_in(out, term, work, from, bytes);
    put_header(out, behind, GOALS_TAG, (count * 2) as u16);
    copy_in(out, behind + 3, work, start, count * 2);
}
