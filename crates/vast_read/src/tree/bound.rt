//! The bound of a loop's condition.

ghost use Rattle.std.specs.Prelude.{◌≡◌};
ghost use Rattle.vast_read.specs.Internal.Bounds.{is_name_of, is_bounded};
ghost use Rattle.vast_read.specs.View.{view};

use crate::tree::expression::NormalExpr;
use vast_names::Word;

/// Whether a comparison by this sign with this left side bounds the name.
#[tactic(auto, unfolding(crate::specs::Internal::Bounds::is_bounded))]
pub(crate) fn is_bounded(sign: &Word, left: &NormalExpr, name: &str) -> bool
    ensures { result ≡ is_bounded name.now sign.now (view left.now) }
{
    sign.as_str() == "<" && left.is_name(name)
}

impl NormalExpr {
    /// Whether it is this name.
    #[tactic(auto, using(crate::proofs::Bounds::names))]
    pub(crate) fn is_name(&self, name: &str) -> bool
        ensures { result ≡ is_name_of name.now (view self.now) }
    {
        match self {
            NormalExpr::Name(word) => word.as_str() == name,
            _ => false,
        }
    }
}
