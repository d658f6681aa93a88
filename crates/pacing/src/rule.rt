//! A start rule: a floor, and for each free count yes or no, whether a collection should begin.
ghost use Rattle.std.specs.Prelude.{◌≡◌, ℕ, Bool};
ghost use Rattle.pacing.specs.Rules.{LawfulRule};

pub trait StartRule {
    ghost floor: { Self → ℕ };

    ghost says: { Self → ℕ → Bool };

    // What a question with a count may leave the rule as. A relation, so that a rule may leave it open.
    ghost becomes: { Self → ℕ → Self → Type 0 };

    // Above the methods, where it is a member that clauses and other members can name, and not below them as a law.
    ghost lawful: { (s : Self) → LawfulRule (floor s) (says s) };

    /// The floor. Asking for it changes nothing.
    fn floor_count(&self) -> u32
        ensures { result ≡ floor self.now };

    /// The answer for a free count. Later answers may change, the floor does not.
    fn ask(&mut self, count: u32) -> bool
        ensures answer { result ≡ says self.old count }
        ensures keeps { floor self.new ≡ floor self.old }
        ensures after { becomes self.old count self.new };
}
