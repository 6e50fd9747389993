//! Laws of the grammar: every token list has at most one tree. The functions compute nothing; each contract is a law
//! over all token lists, over the grammar alone.

ghost use Rattle.vast_literal.specs.Grammar.{OneExpression};
ghost use Rattle.vast_print.specs.Derived.{PrintedExpressions, EqualTexts, PrintedFiles, EqualFiles};
ghost use Rattle.vast_print.specs.WorkedTexts.{WorkedTexts};
ghost use Rattle.vast_print.specs.WorkedOperators.{WorkedOperators};
ghost use Rattle.vast_print.specs.WorkedPages.{WorkedPages};
ghost use Rattle.vast_literal.specs.FileGrammar.{OneDeclaration, OneStatement, OneMember, OneFile};

/// A token list spells at most one expression.
#[tactic(auto, using(vast_expressions::proofs::Uniqueness::one_expression))]
pub fn one_expression()
    ensures { OneExpression }
{}

/// A token list spells at most one declaration.
#[tactic(auto, using(vast_rows::proofs::OneEach::one_declaration))]
pub fn one_declaration()
    ensures { OneDeclaration }
{}

/// A token list spells at most one statement.
#[tactic(auto, using(vast_rows::proofs::OneEach::one_statement))]
pub fn one_statement()
    ensures { OneStatement }
{}

/// A token list spells at most one member of a module.
#[tactic(auto, using(vast_rows::proofs::OneEach::one_member))]
pub fn one_member()
    ensures { OneMember }
{}

/// A token list spells at most one file.
#[tactic(auto, using(vast_rows::proofs::Bridge::one_file))]
pub fn one_file()
    ensures { OneFile }
{}

/// The text of an expression derives its normal form, and no other, where nothing refuses it, the names that it prints are
/// plain, it has no edges, and it is well formed.
pub fn printed_expressions()
    ensures { PrintedExpressions }
{}

/// Two such expressions of equal text have equal normal forms.
pub fn equal_texts()
    ensures { EqualTexts }
{}

/// The printed layout of a file derives its normal form, and no other, where nothing refuses the file, it is plain and
/// well formed.
pub fn printed_files()
    ensures { PrintedFiles }
{}

/// Two such files of equal text have equal normal forms, whatever their dialects; so have two plain files for which
/// [`crate::print_file`] returned equal texts.
pub fn equal_files()
    ensures { EqualFiles }
{}

/// What some expressions, declarations, members and files are printed as; and that two operators in one text are printed
/// and read by the precedence and the associativity that the standard gives them.
pub fn worked_texts()
    ensures texts { WorkedTexts }
    ensures pages { WorkedPages }
    ensures operators { WorkedOperators }
{}
