//! How many words the text of a field is.
ghost use Rattle.std.specs.Prelude.{◌≡◌};
ghost use Rattle.dnw_zone_data.specs.Parsing.{extent_of};

use dnw_data::kind::{Kind, Shape, Shown};

/// How many words the text of a field is.
#[derive(Clone, Copy, Debug, PartialEq, Eq)]
pub enum Extent {
    /// One.
    One,
    /// Three.
    Three,
    /// All that are left; there may be none.
    All,
}

/// Returns how many words are the text of a field of a kind.
pub(crate) fn extent_of(kind: Kind) -> Extent
    ensures { result ≡ extent_of kind }
{
    match kind {
        Kind::Octets(Shown::Hex | Shown::Base64 | Shown::MaybeBase64)
        | Kind::Octets(Shown::Ports | Shown::OldTypes)
        | Kind::List(_)
        | Kind::Shaped(Shape::Location) => Extent::All,
        Kind::Shaped(Shape::Gateway | Shape::Relay | Shape::HostIdentity) => Extent::Three,
        _ => Extent::One,
    }
}
