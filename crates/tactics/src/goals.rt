// Lists of goals in work space.
ghost use Rattle.std.specs.Prelude.{◌+◌, ◌*◌, ◌≤◌, length};
ghost use Rattle.tactics.specs.Goals.{Gathered, Joined};

use words::move_within;

// Two lists of goals copied behind one another.
pub fn gather(work: &mut [u8], to: usize, first: usize, n: usize, second: usize, m: usize)
    requires { (first + n * 2 ≤ to) × (second + m * 2 ≤ to) × (n + m ≤ 256) × (to + (n + m) * 2 ≤ length work.old) }
    ensures { Gathered work.old work.new to first n second m }
{
    move_within(work, first, to, n * 2);
    move_within(work, second, to + n * 2, m * 2);
}

// Two lists of goals joined at a place, by way of the bytes behind all goals, since either of them may lie where the joined list begins.
pub fn join_goals(
    work: &mut [u8],
    to: usize,
    end: usize,
    first: usize,
    n: usize,
    second: usize,
    m: usize,
)
    requires { (to ≤ end) × (first + n * 2 ≤ end) × (second + m * 2 ≤ end) × (n + m ≤ 256) × (end + (n + m) * 2 ≤ length work.old) }
    ensures { Joined work.old work.new to end first n second m }
{
    gather(work, end, first, n, second, m);
    move_within(work, end, to, (n + m) * 2);
}
