//! A kind of atom: a code for each value, and for each code its value or none.
ghost use Rattle.std.specs.Prelude.{◌≡◌, ℕ, Some, IsTrue, ◌↔◌, Option};
ghost use Rattle.atoms.specs.Kinds.{LawfulKind, Apart, ReadsBack, ValueOf};

pub trait Kind {
    type Value;

    // The two maps are what a kind means. Both methods take `&self`, so asking changes neither.
    ghost coded: { Self → Self.Value → ℕ };

    ghost valued: { Self → ℕ → Option Self.Value };

    // Above the methods, where it is a member that clauses and other members can name, and not below them as a law.
    ghost lawful: { (k : Self) → LawfulKind (coded k) (valued k) };

    fn code(&self, value: &Self::Value) -> u32
        ensures { result ≡ coded self.now value.now };

    fn value(&self, code: u32) -> Option<Self::Value>
        ensures { result ≡ valued self.now code };
}

// The value of a code, told by the codes of values alone.
fn read<K: Kind>(kind: &K, code: u32) -> Option<K::Value>
    ensures { ValueOf (K.coded kind.now) code result }
{
    kind.value(code)
}

/// The value that is read back from the code of `value`.
pub fn reread<K: Kind>(kind: &K, value: &K::Value) -> Option<K::Value>
    ensures same { result ≡ Some value.now }
    ensures every { ReadsBack (K.coded kind.now) (K.valued kind.now) }
{
    read(kind, kind.code(value))
}

/// Whether `a` and `b` are one value, told from their codes alone.
pub fn same_value<K: Kind>(kind: &K, a: &K::Value, b: &K::Value) -> bool
    ensures same { IsTrue result ↔ (a.now ≡ b.now) }
    ensures apart { Apart (K.coded kind.now) }
{
    kind.code(a) == kind.code(b)
}
