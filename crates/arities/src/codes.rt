// Arities as numbers: with one added, and 0 for none, so that cleared work space says that none is known. They are no Option, since that is how they are stored,
// two bytes each, and how they are passed on from there.
ghost use Rattle.std.specs.Prelude.{◌≡◌, ℕ};
ghost use Rattle.std.proofs.Math.Option.{Option};
ghost use Rattle.evaluation.specs.TacticArity.{sum_arity, common_arity};
ghost use Rattle.arities.specs.Arities.{arity_code};

// The arity of a tensor, by those of its inner terms.
pub fn sum(l: u16, r: u16) -> u16
    ensures { (a b : Option ℕ) → l ≡ arity_code a → r ≡ arity_code b → result ≡ arity_code (sum_arity a b) }
{
    if l == 0 || r == 0 {
        return 0;
    }
    let total = l as usize + r as usize - 1;
    if 257 < total {
        return 0;
    }
    total as u16
}

// The arity of an alternation, by those of its inner terms.
pub fn common(l: u16, r: u16) -> u16
    ensures { (a b : Option ℕ) → l ≡ arity_code a → r ≡ arity_code b → result ≡ arity_code (common_arity a b) }
{
    if l == r { l } else { 0 }
}
