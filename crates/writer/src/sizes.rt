// The sizes of what is written, from the counts alone: known before a byte is written.
ghost use Rattle.std.specs.Prelude.{◌≡◌, ◌≤◌};
ghost use Rattle.format.specs.Limits.{most_goals, most_uses, most_opens};
ghost use Rattle.writer.specs.Sizes.{term_size, proof_size};

// The bytes of the term that is written from so many uses and opens: an atomic has 5 and an id 3, and each but one has the header of a sequence or tensor in front.
fn term_size(uses: usize, opens: usize) -> usize
    requires { (uses ≤ most_uses) × (opens ≤ most_opens) }
    ensures { result ≡ term_size uses opens }
{
    if uses + opens == 0 {
        return 3;
    }
    8 * uses + 6 * opens - 3
}

// The bytes of the proof file that is written from so many roots, uses and opens.
pub fn proof_size(roots: usize, uses: usize, opens: usize) -> usize
    requires { (roots ≤ most_goals) × (uses ≤ most_uses) × (opens ≤ most_opens) }
    ensures { result ≡ proof_size roots uses opens }
{
    let term = term_size(uses, opens);
    3 + roots * 2 + term + (3 + opens * 2)
}
