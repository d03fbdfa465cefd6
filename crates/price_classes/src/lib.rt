// The price class of a ceiling, by its leading zeros. No entry point: `quoting` calls it.
#![tactic(auto)]

ghost use Rattle.std.specs.Prelude.{◌≡◌, ◌<◌, ◌^◌};
ghost use Rattle.price_classes.specs.Classes.{class_of};

// How many edges are not above the ceiling: as many as it has digits in base two, without leading zeros. There is no edge 2 ^ 43, so
// that a ceiling with more than 43 digits would get a class too many.
pub fn price_class(ceiling: u64) -> u32
    requires { ceiling < 2 ^ 43 }
    ensures { result ≡ class_of ceiling }
{
    u64::BITS - ceiling.leading_zeros()
}
