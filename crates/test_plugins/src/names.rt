//! Names of a program's own type.
ghost use Rattle.std.specs.Prelude.{string_bytes, refl};

use liquid_views::ObjectIndex;

/// A name of a program's own type.
#[derive(PartialEq, Eq, PartialOrd, Ord, Hash, Drop)]
pub struct Name(pub String);

impl ObjectIndex for Name {
    ghost index = { λ name. string_bytes name.0 };

    ghost equal = { λ x y. refl };

    ghost ordered = { λ x y. refl };

    ghost hashed = { λ x. refl };

    fn as_index(&self) -> &str {
        self.0.as_str()
    }
}
