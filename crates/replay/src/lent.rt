// The lent spaces of a call, inspected after it.
ghost use Rattle.std.specs.Prelude.{◌≡◌, true, ℕ, ◌<◌, length, get_or};

// The byte that fills a work space before a call.
pub const FILLED: u8 = 165;

// The byte that fills an output space before a call.
pub const BLANK: u8 = 90;

// Whether the work space is as a call leaves it: untouched after 29, otherwise cleared.
pub fn is_left(work: &[u8], number: u32) -> bool
    ensures untouched { result ≡ true → number ≡ 29 → (k : ℕ) → k < length work.now → get_or work.now k 0 ≡ 165 }
    ensures cleared { result ≡ true → (number ≡ 29 → ⊥) → (k : ℕ) → k < length work.now → get_or work.now k 0 ≡ 0 }
{
    let left = if number == 29 { FILLED } else { 0 };
    work.iter().all(|b| *b == left)
}

// The digest with one byte more.
fn digest_with(d: u64, b: u8) -> u64
    requires { d < 4294967291 }
    ensures { result < 4294967291 }
{
    (d * 16777619 + u64::from(b) + 1) % 4294967291
}

// Whether the digest of a whole output space is the one that is told.
pub fn is_digest(out: &[u8], told: u32) -> bool {
    let mut d: u64 = 1;
    for b in out {
        d = digest_with(d, *b);
    }
    d == u64::from(told)
}
