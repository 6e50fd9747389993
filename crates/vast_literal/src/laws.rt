//! Laws over the definitions of the scan, of the grammar and of normal forms. The functions compute nothing.

ghost use Rattle.vast_literal.specs.Lexemes.{TakesLongest};
ghost use Rattle.vast_literal.specs.WorkedLiterals.{WorkedLiterals};

/// What some texts denote, and how some numbers, patterns and strings are written: worked statements on the definitions.
#[tactic(auto, using(crate::proofs::LiteralRows::worked_literals))]
pub fn worked_literals()
    ensures { WorkedLiterals }
{}

/// The scan gives each text exactly the tokens of its lexemes, at each place the longest, and none where the text does not fall
/// into lexemes.
#[tactic(auto, using(crate::proofs::Longest::takes_longest))]
pub fn scan_takes_longest()
    ensures { TakesLongest }
{}
