//! Laws. The functions compute nothing; the contract of each is a law over all lists.

ghost use Rattle.vast_list.specs.Built.{CallsAreNamed, StepsBuildAsReplayed};

/// Where all lines that are calls are steps, what they build is what `replay` builds of these steps, and their answers are
/// the same.
pub fn steps_build_as_replayed()
    ensures { StepsBuildAsReplayed }
{}

/// The calls of a list have the names that stand in its lines, one for each line that is a step or a helper, in order.
pub fn calls_are_named()
    ensures { CallsAreNamed }
{}
