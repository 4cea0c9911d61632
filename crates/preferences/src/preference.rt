ghost use Rattle.std.specs.Prelude.{◌≡◌};
ghost use Rattle.preferences.specs.Preferences.{Order, Preferring};

/// Which of two tasks a processor would rather have.
pub trait Preference {
    ghost order: { Self → Order };

    ghost preferring: { (p : Self) → Preferring (order p) };

    /// Whether task a comes before task b at a processor that had this task before.
    fn comes_before(&self, processor: usize, had: Option<u8>, a: usize, b: usize) -> bool
        ensures { result ≡ order self.now processor had a b };
}
