// The numbers that a list can have: a list of the calls has numbers of 32 bits, a strip has bytes.
ghost use Rattle.std.specs.Prelude.{◌≡◌, ℕ, ◌≤◌, ◌↔◌, IsSome, IfSome};

/// A type of the numbers of a list. Every such type has 0, with which all places of a list begin.
pub trait Number: Copy {
    ghost value: { Self → ℕ };

    ghost largest: { ℕ };

    /// The number of this type, if it has it.
    fn from_u32(number: u32) -> Option<Self>
        ensures in_range { IsSome result ↔ (number ≤ largest) }
        ensures value { IfSome result (λ taken. value taken ≡ number) };
}

impl Number for u32 {
    ghost value = { λ number. number };

    ghost largest = { 4294967295 };

    fn from_u32(number: u32) -> Option<Self> {
        Some(number)
    }
}

impl Number for u8 {
    ghost value = { λ number. number };

    ghost largest = { 255 };

    fn from_u32(number: u32) -> Option<Self> {
        u8::try_from(number).ok()
    }
}
