//! Conditions of calls as tests.

ghost use Rattle.std.specs.Prelude.{◌≡◌, ◌≢◌, [], IsTrue};
ghost use Rattle.std.specs.List.{list_all};
ghost use Rattle.std.specs.Int.{is_positive};
ghost use Rattle.vast_core.specs.Types.{AreDimensions};
ghost use Rattle.vast_script.specs.Conditions.{is_named, are_dimensions};

/// Whether the name is not empty.
#[tactic(auto, using(crate::proofs::Tested::named_there))]
pub(crate) fn is_named(name: &str) -> bool
    ensures test { result ≡ is_named name.now }
    ensures named { IsTrue result → name.now ≢ [] }
{
    !name.is_empty()
}

fn each_positive(dimensions: &[i64]) -> bool
    ensures { result ≡ list_all is_positive dimensions.now }
{
    dimensions.iter().all(|dimension| *dimension > 0)
}

/// Whether there is a dimension, and each is at least 1.
pub(crate) fn are_dimensions(dimensions: &[i64]) -> bool
    ensures test { result ≡ are_dimensions dimensions.now }
    ensures dimensions { IsTrue result → AreDimensions dimensions.now }
{
    if dimensions.is_empty() {
        return false;
    }
    each_positive(dimensions)
}
