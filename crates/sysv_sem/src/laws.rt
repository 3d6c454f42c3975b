//! Laws of the definitions alone. A call of one does nothing; its contract is the law.

ghost use Rattle.std.specs.Prelude.{◌≡◌, ◌≤◌, ℕ, ℤ, List, All, true};
ghost use Rattle.std.specs.List.{fold};
ghost use Rattle.sysv_sem.specs.Operation.{most_value, is_adjustment, performed, adjusted, outcome, Done};
ghost use Rattle.sysv_sem.specs.declared.operation.Operation.{Operation};

/// A list that passes performs each of its operations in turn.
pub fn done_performs_each()
    ensures values { (values v : List ℕ) (held a : ℕ → ℤ) (operations : List Operation)
        → outcome values held operations ≡ Done v a → v ≡ fold performed values operations }
    ensures adjustments { (values v : List ℕ) (held a : ℕ → ℤ) (operations : List Operation)
        → outcome values held operations ≡ Done v a → a ≡ fold adjusted held operations }
{}

/// A list that passes leaves the values and the adjustments in range.
pub fn done_stays_in_range()
    ensures values { (values v : List ℕ) (held a : ℕ → ℤ) (operations : List Operation)
        → outcome values held operations ≡ Done v a
        → All (λ x. x ≤ most_value) values → All (λ x. x ≤ most_value) v }
    ensures adjustments { (values v : List ℕ) (held a : ℕ → ℤ) (operations : List Operation) (n : ℕ)
        → outcome values held operations ≡ Done v a
        → is_adjustment (held n) ≡ true → is_adjustment (a n) ≡ true }
{}
