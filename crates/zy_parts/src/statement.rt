ghost use Rattle.std.specs.Prelude.{◌≡◌, ℕ};

use zy_wire::Spelled;

/// What a party signs: one of twelve bodies, by its number.
pub trait Statement: Spelled {
    ghost its_number: { ℕ };

    /// Its number in the signed text.
    fn number() -> u8
        ensures { result ≡ its_number };
}
