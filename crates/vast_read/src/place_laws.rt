//! A law over the definition of a place between tokens. The function computes nothing.

ghost use Rattle.vast_read.specs.Places.{PlacesPartTokens};

/// Where a text falls into lexemes, its tokens are some and those of what stands after a place between tokens, which
/// falls into lexemes too.
pub fn places_part_tokens()
    ensures { PlacesPartTokens }
{}
