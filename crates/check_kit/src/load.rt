// Loading a file into a lent space.
ghost use Rattle.std.specs.Prelude.{◌≡◌, ◌+◌, ◌≤◌, ◌<◌, ◌^◌, IfSome, IsNone, Some, length};
ghost use Rattle.io.specs.Counts.{IsPrefixLen};

use std::fs::File;
use std::io::Read;
use std::rt::Files;

// One read, behind the bytes read so far: how many bytes came; none where it failed, as every read of a directory does.
fn read_more(file: &mut impl Read, buf: &mut [u8], from: usize) -> Option<usize>
    requires { from ≤ length buf.old }
    ensures { IfSome result (λ n. from + n ≤ length buf.old) }
{
    file.read(&mut buf[from..]).ok()
}

// How many bytes there are with those of one more read. Where it failed, what the file holds behind the bytes before it is not known, so that they do not count either.
fn counted(before: usize, read: Option<usize>) -> Option<usize>
    requires { IfSome read (λ n. before + n < 2 ^ 64) }
    ensures failed { IsNone read → IsNone result }
    ensures came { IfSome read (λ n. result ≡ Some (before + n)) }
{
    Some(before + read?)
}

// Reads until buf is full or the file ends: how many bytes; none where a read failed.
fn read_all(file: &mut impl Read, buf: &mut [u8]) -> Option<usize>
    ensures { IfSome result (λ n. IsPrefixLen n buf.new) }
{
    let mut count: usize = 0;
    while count < buf.len() {
        let next = counted(count, read_more(file, buf, count))?;
        if next == count {
            break;
        }
        count = next;
    }
    Some(count)
}

// The file's bytes at the start of buf, and how many; none where it cannot be opened, as where a read fails. A file that fills buf, of 65,536 bytes, is too long for the engine, whatever is behind.
pub fn load(rt: &impl Files, path: &str, buf: &mut [u8]) -> Option<usize>
    ensures { IfSome result (λ n. IsPrefixLen n buf.new) }
{
    let mut file = File::open(rt, path).ok()?;
    read_all(&mut file, buf)
}
