// Document 01: "A rule name, a goal, a label and a tactic number are never taken for one another, though each is 16 bits".
ghost use Rattle.std.specs.Prelude.{◌≡◌, ◌+◌, ◌<◌, length};
ghost use Rattle.words.specs.Word.{word};

use words::load16;

#[derive(Clone, Copy, PartialEq, Eq)]
pub struct RuleName(pub u16);

impl From<u16> for RuleName {
    ghost from_gives = { λ v e. e.0 ≡ v };

    fn from(v: u16) -> RuleName {
        RuleName(v)
    }
}

#[derive(Clone, Copy, PartialEq, Eq)]
pub struct Goal(pub u16);

impl From<u16> for Goal {
    ghost from_gives = { λ v e. e.0 ≡ v };

    fn from(v: u16) -> Goal {
        Goal(v)
    }
}

#[derive(Clone, Copy, PartialEq, Eq)]
pub struct Label(pub u16);

impl From<u16> for Label {
    ghost from_gives = { λ v e. e.0 ≡ v };

    fn from(v: u16) -> Label {
        Label(v)
    }
}

#[derive(Clone, Copy, PartialEq, Eq)]
pub struct TacticNo(pub u16);

impl From<u16> for TacticNo {
    ghost from_gives = { λ v e. e.0 ≡ v };

    fn from(v: u16) -> TacticNo {
        TacticNo(v)
    }
}

// The value at a place, as one of these.
pub fn value_at<V: From<u16>>(s: &[u8], at: usize) -> V
    requires { at + 1 < length s.now }
    ensures { V.From.from_gives (word s.now at) result }
{
    V::from(load16(s, at))
}
