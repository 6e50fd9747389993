//! Laws of tables and what they tell, and of the page and the grammar. The functions compute
//! nothing.

ghost use Rattle.vast_literal.specs.FileGrammar.{OneFile};
ghost use Rattle.vast_literal.specs.WorkedTexts.{WorkedTexts};
ghost use Rattle.vast_rows.specs.Laws.{RowsAreTheGrammar, TellsOnce, TraceBuilds, TraceIsOne};
ghost use Rattle.vast_rows.specs.Tables.{facts_of, rows_of};

use crate::grammar::Table;

/// The page of rows spells as a file exactly the tokens that the grammar of files does, and tells of
/// them the file's trace.
pub fn rows_are_the_grammar()
    ensures { RowsAreTheGrammar }
{}

/// A table tells one thing of tokens at most.
pub fn telling_is_one(table: &Table)
    ensures { TellsOnce (facts_of table.now) (rows_of table.now) }
{
    let _table = *table;
}

/// The trace of a file builds it.
pub fn trace_builds()
    ensures { TraceBuilds }
{}

/// Files of one trace are one.
pub fn trace_is_one()
    ensures { TraceIsOne }
{}

/// Tokens spell one file at most.
pub fn file_is_one()
    ensures { OneFile }
{}

/// What some texts derive, and the normal forms of some trees.
pub fn worked_texts()
    ensures { WorkedTexts }
{}
