ghost use Rattle.std.specs.Prelude.{◌≡◌, ℕ, ◌-◌, ◌^◌, ◌<◌, ◌≤◌, ℤ, pos, Some};
ghost use Rattle.std.specs.Option.{option_map};
ghost use Rattle.literal.specs.Digits.{up_to};
ghost use Rattle.std.proofs.Common.{rules};

// A kind of number that integer literals decode to. It states its largest value, here below 2^64.
pub trait Number: Sized {
    const TOP: u64;

    ghost TOP: { ℕ };

    ghost value: { Self → ℤ };

    // The number of this kind, for one that is at most the largest.
    fn from_small(n: u64) -> Self
        requires { n ≤ TOP }
        ensures { value result ≡ pos n };

    // The number of this kind, where it is at most the largest.
    final fn from_u64(n: u64) -> Option<Self>
        ensures { option_map value result ≡ option_map pos (up_to TOP (Some n)) }
    {
        (n <= Self::TOP).then(|| Self::from_small(n))
    }

    ghost small: { TOP < 2 ^ 64 };
}

impl Number for i64 {
    const TOP: u64 = 0x7fff_ffff_ffff_ffff;

    ghost TOP = { 2 ^ 63 - 1 };

    ghost value = { λ x. x };

    ghost small = { Prim.search rules };

    fn from_small(n: u64) -> i64 {
        n.cast_signed()
    }
}

impl Number for u64 {
    const TOP: u64 = u64::MAX;

    ghost TOP = { 2 ^ 64 - 1 };

    ghost value = { λ x. pos x };

    ghost small = { Prim.search rules };

    fn from_small(n: u64) -> u64 {
        n
    }
}
