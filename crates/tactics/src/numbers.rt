// Values of 24 and of 32 bits and headers of fields in work space.
ghost use Rattle.std.specs.Prelude.{◌≡◌, ◌+◌, ◌<◌, length};
ghost use Rattle.tactics.specs.Numbers.{triple, put_triple, long, put_long, put_header};

use words::store16;

// A value of 24 bits, low byte first.
#[tactic(auto, unfolding(crate::specs::Numbers::triple))]
pub fn load24(s: &[u8], at: usize) -> usize
    requires { at + 2 < length s.now }
    ensures { result ≡ triple s.now at }
{
    u32::from_le_bytes([s[at], s[at + 1], s[at + 2], 0]) as usize
}

// The same stored.
#[tactic(auto, unfolding(crate::specs::Numbers::put_triple))]
pub fn store24(s: &mut [u8], at: usize, v: usize)
    requires { (at + 2 < length s.old) × (v < 16777216) }
    ensures { s.new ≡ put_triple s.old at v }
{
    let [low, middle, high, _] = (v as u32).to_le_bytes();
    s[at] = low;
    s[at + 1] = middle;
    s[at + 2] = high;
}

// A value of 32 bits, high byte first.
#[tactic(auto, unfolding(crate::specs::Numbers::long, words::specs::Word::word))]
pub fn load32(s: &[u8], at: usize) -> usize
    requires { at + 3 < length s.now }
    ensures { result ≡ long s.now at }
{
    u32::from_be_bytes([s[at], s[at + 1], s[at + 2], s[at + 3]]) as usize
}

// The same stored.
#[tactic(auto, unfolding(crate::specs::Numbers::put_long, words::specs::Word::put_word))]
pub fn store32(s: &mut [u8], at: usize, v: usize)
    requires { (at + 3 < length s.old) × (v < 4294967296) }
    ensures { s.new ≡ put_long s.old at v }
{
    let [first, second, third, last] = (v as u32).to_be_bytes();
    s[at] = first;
    s[at + 1] = second;
    s[at + 2] = third;
    s[at + 3] = last;
}

// The header of a field.
#[tactic(auto, unfolding(crate::specs::Numbers::put_header))]
pub fn put_header(work: &mut [u8], at: usize, tag: u8, len: u16)
    requires { at + 2 < length work.old }
    ensures { work.new ≡ put_header work.old at tag len }
{
    store16(work, at + 1, len);
    work[at] = tag;
}
