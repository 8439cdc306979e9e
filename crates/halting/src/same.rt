// The comparison of a saved state with the bytes that it should have: contents, and then zeros.
ghost use Rattle.std.specs.Prelude.{◌≡◌, ◌≤◌, length};
ghost use Rattle.entries.specs.Halting.{same_bytes};
ghost use Rattle.halting.specs.SavedBytes.{EndsAt, saved_bytes, all_zero};

use arities::layout::SPACE_END;
use saver::layout::SAVED_SIZE;

// So many bytes are looked at in one loop of a length that the compiler knows, which it unrolls.
const BLOCK: usize = 4096;

// Whether all bytes are zero. Their bits are gathered and looked at once, without a branch for each byte, which `all` would have.
fn is_zero(s: &[u8]) -> bool
    ensures { result ≡ all_zero s.now }
{
    s.iter().fold(0, |seen, b| seen | *b) == 0
}

// The same, of many bytes.
fn all_zero(s: &[u8]) -> bool
    ensures { result ≡ all_zero s.now }
{
    let (blocks, rest) = s.as_chunks::<BLOCK>();
    blocks.iter().all(|block| is_zero(block)) && is_zero(rest)
}

// Whether saved bytes are those of the state whose contents stand in the work space up to a place, no more and no fewer.
pub fn same_state(work: &[u8], end: usize, saved: &[u8]) -> bool
    requires { EndsAt end × (end ≤ length work.now) }
    ensures { result ≡ same_bytes (saved_bytes work.now end) saved.now }
{
    let right_size = saved.len() == SAVED_SIZE;
    if !right_size {
        return false;
    }
    let n = end - SPACE_END;
    work[SPACE_END..end] == saved[..n] && all_zero(&saved[n..])
}
