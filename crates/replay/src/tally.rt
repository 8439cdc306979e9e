// What a replay counts.
ghost use Rattle.std.specs.Prelude.{◌≤◌};
ghost use Rattle.replay.specs.Bounds.{Below, Sum};

// What one comparison of a case finds. Untold: the case says nothing of it, or the call is not replayed yet. Skipped: the case lends more than there is.
#[derive(Clone, Copy, PartialEq, Eq)]
pub enum Verdict {
    Same,
    Different,
    Skipped,
    Untold,
}

// The verdict of a comparison that was made.
pub fn compared(same: bool) -> Verdict {
    if same {
        Verdict::Same
    } else {
        Verdict::Different
    }
}

// Counts of cases: all, those replayed as reading, those replayed as calls, those skipped, and those that differ.
#[derive(Clone, Copy, Default)]
pub struct Tally {
    pub cases: u64,
    pub reading: u64,
    pub calls: u64,
    pub skipped: u64,
    pub differences: u64,
}

// 1 where a comparison was made.
fn made(v: Verdict) -> u64
    ensures { result ≤ 1 }
{
    u64::from(matches!(v, Verdict::Same | Verdict::Different))
}

impl Tally {
    // No case.
    pub fn nothing() -> Tally
        ensures { Below result 0 }
    {
        Tally::default()
    }

    // One case, of which both parts together are at most one difference.
    pub fn one_case(reading: Verdict, call: Verdict) -> Tally
        ensures { Below result 1 }
    {
        Tally {
            cases: 1,
            reading: made(reading),
            calls: made(call),
            skipped: u64::from(call == Verdict::Skipped),
            differences: u64::from(reading == Verdict::Different || call == Verdict::Different),
        }
    }

    // Both counts together.
    pub fn sum(self, other: Tally) -> Tally
        requires { Below self 1000000 × Below other 1000000 }
        ensures { Sum self other result }
    {
        Tally {
            cases: self.cases + other.cases,
            reading: self.reading + other.reading,
            calls: self.calls + other.calls,
            skipped: self.skipped + other.skipped,
            differences: self.differences + other.differences,
        }
    }
}
