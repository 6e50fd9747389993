//! Laws. The functions compute nothing; the contract of each is a law over all lists.

ghost use Rattle.vast_lint.specs.Laws.{EndTellsUnmended};

/// Whatever steps a list has, its end tells exactly the answers that no later step has mended: a
/// case without arms, a replication of no times that stands in no concatenation, and in Verilog a
/// function without inputs.
pub fn end_tells_unmended()
    ensures { EndTellsUnmended }
{}
