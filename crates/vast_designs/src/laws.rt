//! Laws. The functions compute nothing; the contract of each is a law of the designs.

ghost use Rattle.vast_designs.specs.DesignCalls.{IsPlainDesign, passthrough_calls, cases_calls};

/// The files that the lists of the designs build are plain: so the text of each derives its normal form, and no other
/// tree.
pub fn listed_designs_are_plain()
    ensures passthrough { IsPlainDesign passthrough_calls }
    ensures cases { IsPlainDesign cases_calls }
{}
