// The bytes of marks, stored at a place.
ghost use Rattle.std.specs.Prelude.{◌≡◌, ◌∷◌, [], ◌+◌, ◌≤◌, ◌<◌, length};
ghost use Rattle.std.proofs.lemmas.List.Edits.{sets};
ghost use Rattle.notation.specs.Written.{decimal};
ghost use Rattle.text_writer.specs.Spelling.{low_digits};

// How many digits a value has.
fn count_digits(v: usize) -> usize
    requires { v < 65536 }
    ensures { (result ≤ 5) × (decimal v ≡ low_digits result v) }
{
    match v {
        0..10 => 1,
        10..100 => 2,
        100..1000 => 3,
        1000..10000 => 4,
        _ => 5,
    }
}

// The digits of a value, from the last to the first; tells how many.
fn put_digits(v: usize, at: usize, out: &mut [u8]) -> usize
    requires { (v < 65536) × (at + 5 ≤ length out.old) }
    ensures written { (result ≡ length (decimal v)) × (out.new ≡ sets out.old at (decimal v)) }
    ensures few { result ≤ 5 }
{
    let n = count_digits(v);
    let mut rest = v;
    for i in (0..n).rev() {
        out[at + i] = b'0' + (rest % 10) as u8;
        rest /= 10;
    }
    n
}

// A byte, and the digits of a value behind it; tells how many bytes they are.
pub fn put_numbered(a: u8, v: usize, at: usize, out: &mut [u8]) -> usize
    requires { (v < 65536) × (at + 6 ≤ length out.old) }
    ensures written { (result ≡ length (a ∷ decimal v)) × (out.new ≡ sets out.old at (a ∷ decimal v)) }
    ensures few { result ≤ 6 }
{
    out[at] = a;
    put_digits(v, at + 1, out) + 1
}

// Two bytes.
pub fn put_two(a: u8, b: u8, at: usize, out: &mut [u8])
    requires { at + 2 ≤ length out.old }
    ensures { out.new ≡ sets out.old at (a ∷ b ∷ []) }
{
    out[at] = a;
    out[at + 1] = b;
}

// A sign, with a blank on each side.
pub fn put_sign(b: u8, at: usize, out: &mut [u8])
    requires { at + 3 ≤ length out.old }
    ensures { out.new ≡ sets out.old at (32 ∷ b ∷ 32 ∷ []) }
{
    out[at] = b' ';
    out[at + 1] = b;
    out[at + 2] = b' ';
}
