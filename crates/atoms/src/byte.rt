ghost use Rattle.std.specs.Prelude.{◌≡◌, ⊤};
ghost use Rattle.atoms.specs.Bounds.{IsByte};

use std::alloc::AllocError;
use std::marker::PhantomData;

// A `u8` of what `Of` names, whose bound the type itself carries: to a proof a plain `u8` is any number, so "256 + n is
// read back as n" would not hold of it. Every `u8` makes one, so a caller is refused nothing.
#[derive_where(Copy, PartialEq, Eq, Debug)]
pub struct Byte<Of> {
    n: u8,
    of: PhantomData<Of>,
    ghost small: { IsByte n },
}

// By hand: beside a type parameter and a ghost field no derive of it is taken.
impl<Of> Clone for Byte<Of> {
    ghost is_clone = { λ a b. b ≡ a };

    ghost is_infallible = { λ _. ⊤ };

    fn clone(&self) -> Result<Byte<Of>, AllocError> {
        Ok(*self)
    }
}

impl<Of> Byte<Of> {
    pub fn new(n: u8) -> Byte<Of>
        ensures { result.n ≡ n }
    {
        Byte { n, of: PhantomData }
    }

    pub fn get(&self) -> u8
        ensures { result ≡ self.now.n }
    {
        self.n
    }
}
