//! Laws. The functions compute nothing; the contract of each is a law over all lists of steps.

ghost use Rattle.vast_script.specs.Headline.{PrintsWhatWasBuilt, ReadsBackWhatWasBuilt};
ghost use Rattle.vast_script.specs.Laws.{StepsKeepTheFile};

/// Whatever steps are made, the file keeps its id and its dialect and owns every handle that it owned; each of its
/// expressions and types is what it was, and an expression's text, or its refusal, is the same.
pub fn steps_keep_the_file()
    ensures { StepsKeepTheFile }
{}

/// The headline: for every dialect and every list of steps, what `VastFile::new`, [`crate::replay`] and
/// `VastFile::emit` return, one after the other, is the printed layout of the tree that the steps build, byte for byte,
/// or its first refusal.
///
/// `specs/Headline.antt` names what to read to believe it, and in which order.
pub fn prints_what_was_built()
    ensures { PrintsWhatWasBuilt }
{}

/// And where that tree is plain, the text derives its normal form in the grammar, and no other tree.
pub fn reads_back_what_was_built()
    ensures { ReadsBackWhatWasBuilt }
{}
