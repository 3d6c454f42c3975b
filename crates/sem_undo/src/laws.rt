//! Laws of the definitions alone. A call of one does nothing; its contract is the law.

ghost use Rattle.std.specs.Prelude.{◌≡◌, ◌≢◌, ◌+ℤ◌, ◌-ℤ◌, ℕ, ℤ, None};
ghost use Rattle.std.specs.FinMap as fin;
ghost use Rattle.sem_undo.specs.Undo.{Key, Undo, adjustment, subtracted, without_set};

/// What is subtracted at one semaphore is subtracted there, and nowhere else; twice is by the sum.
pub fn subtracted_adds_up()
    ensures there { (u : Undo) (k : Key) (a : ℤ) → adjustment (subtracted u k a) k ≡ adjustment u k -ℤ a }
    ensures others { (u : Undo) (k q : Key) (a : ℤ) → q ≢ k → fin.get (subtracted u k a) q ≡ fin.get u q }
    ensures twice { (u : Undo) (k : Key) (a b : ℤ) → subtracted (subtracted u k a) k b ≡ subtracted u k (a +ℤ b) }
{}

/// After a set is removed there is no adjustment at its semaphores, and each other adjustment is what it was.
pub fn without_set_is_of_others()
    ensures gone { (u : Undo) (set : ℕ) (k : Key) → k.0 ≡ set → fin.get (without_set set u) k ≡ None }
    ensures others { (u : Undo) (set : ℕ) (k : Key) → k.0 ≢ set → fin.get (without_set set u) k ≡ fin.get u k }
{}
