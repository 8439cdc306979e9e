// The labels around a term. They are skipped in a loop, so that a term inside thousands of labels costs the walk no more than a bare one.
ghost use Rattle.std.specs.Prelude.{◌≡◌};
ghost use Rattle.format.specs.Terms.{Term};
ghost use Rattle.format.specs.Standing.{Stands};
ghost use Rattle.walks.specs.Labels.{bare_at, label_count_wrong};

use format::tags::LABEL;

// Whether the term at a place is a label that is not on one goal.
pub fn label_count_wrong(s: &[u8], at: usize, count: usize) -> bool
    requires { (t : Term) × Stands s.now at t }
    ensures { (t : Term) → Stands s.now at t → result ≡ label_count_wrong t count }
{
    s[at] == LABEL && count != 1
}

// The place of the term inside the labels at a place.
pub fn unlabelled(s: &[u8], at: usize) -> usize
    requires { (t : Term) × Stands s.now at t }
    ensures { (t : Term) → Stands s.now at t → result ≡ bare_at at t }
{
    let mut place = at;
    while s[place] == LABEL {
        place += 5;
    }
    place
}
