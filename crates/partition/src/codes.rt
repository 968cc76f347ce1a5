//! What a record must have to stand in a partition: a code that can be read and exchanged.
ghost use Rattle.std.specs.Prelude.{◌≡◌, ℕ};

/// A record that holds a code. Where it holds several, `F` says which one is meant.
/// By the laws a code that is put in is read back, replaces the one before, and the own code changes nothing.
pub trait Coded<F>: Copy {
    ghost code: { Self → ℕ };

    ghost recode: { Self → ℕ → Self };

    fn code(&self) -> usize
        ensures { result ≡ code self.now };

    /// The same record with the code `c`.
    fn with_code(self, c: usize) -> Self
        ensures { result ≡ recode self c };

    ghost reads: { (x : Self) (c : ℕ) → code (recode x c) ≡ c };

    ghost again: { (x : Self) (c d : ℕ) → recode (recode x c) d ≡ recode x d };

    ghost kept: { (x : Self) → recode x (code x) ≡ x };
}
