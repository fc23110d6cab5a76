//! One of two types.
ghost use Rattle.liquid_extend.specs.meaning.OneOf.{shape_beside};

use liquid_plugins::Meant;

/// Something of a library, or of a host's own.
///
/// A language has one type of tags and one type of blocks. `Beside<L, O>` is both of a library's plug-ins
/// `L` and of one's own `O`, and so are the plans, nodes and progresses that they make.
#[derive(Debug, Clone, Copy, PartialEq, Eq, Drop)]
pub enum Beside<L, O> {
    /// It is the library's.
    Library(L),
    /// It is the host's own.
    Own(O),
}

impl<L: Meant, O: Meant> Meant for Beside<L, O> {
    type Shape = Beside<L::Shape, O::Shape>;

    ghost shape = { shape_beside L.shape O.shape };
}
