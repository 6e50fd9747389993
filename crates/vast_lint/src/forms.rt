//! What the lint keeps of expressions and types.

ghost use Rattle.std.specs.Prelude.{◌≡◌, is_none};
ghost use Rattle.vast_lint.specs.Internal.Forms.{is_left_side, is_selectable, is_task};

use crate::rule::Rule;

/// What an expression is, as far as a rule asks.
#[derive(Clone, Copy, PartialEq)]
pub(crate) enum Form {
    /// A net or a variable, or an element of one: how many dimensions can still be selected from, where that is known.
    Signal(Option<usize>),
    /// A bit of a vector.
    Bit,
    /// A part select of a net or a variable.
    Part,
    /// A parameter, a loop's variable, or a select of one.
    Constant,
    /// A number without a width.
    Number(i32),
    /// A literal without a width, other than in plain decimal.
    Unsized,
    /// A literal of a width, or of one digit that fills its place.
    Literal,
    /// A string, and whether it has a quote.
    Text(bool),
    /// What an operator, a cast, a replication or a select of a computed value computes.
    Computed,
    /// A call of a function or of a task: whether it is a system call without arguments, and whether as a statement it is
    /// one that only a simulation runs.
    Call(bool, bool),
    /// A concatenation, and whether each of its parts can stand on the left of an assignment.
    Concat(bool),
    Pattern,
    Edge,
    /// A macro, or what a helper made.
    Other,
}

impl Form {
    /// The rule that tells a select of such.
    pub(crate) fn select_rule(self) -> Option<Rule>
        ensures { is_none result ≡ is_selectable self }
    {
        match self {
            Form::Signal(_) | Form::Constant | Form::Other => None,
            Form::Bit => Some(Rule::SelectOfBit),
            Form::Part => Some(Rule::SelectOfPart),
            Form::Concat(_) => Some(Rule::SelectOfConcat),
            _ => Some(Rule::SelectOfValue),
        }
    }

    /// The rule that tells such on the left of an assignment.
    pub(crate) fn left_rule(self) -> Option<Rule>
        ensures { is_none result ≡ is_left_side self }
    {
        match self {
            Form::Signal(_)
            | Form::Bit
            | Form::Part
            | Form::Concat(true)
            | Form::Pattern
            | Form::Other => None,
            Form::Constant => Some(Rule::LeftParameter),
            Form::Concat(false) => Some(Rule::LeftPart),
            _ => Some(Rule::LeftSide),
        }
    }

    /// The rule that tells an edge of such.
    pub(crate) fn edge_rule(self) -> Option<Rule> {
        match self {
            Form::Signal(_) | Form::Bit | Form::Constant | Form::Other => None,
            Form::Edge => Some(Rule::EdgeInExpression),
            _ => Some(Rule::EdgeOfValue),
        }
    }

    /// The rule that tells such as a statement.
    pub(crate) fn task_rule(self) -> Option<Rule>
        ensures { is_none result ≡ is_task self }
    {
        match self {
            Form::Call(_, _) | Form::Other => None,
            _ => Some(Rule::TaskOfValue),
        }
    }

    /// Whether it is a net or a variable that was declared.
    pub(crate) fn is_declared(self) -> bool {
        matches!(self, Form::Signal(Some(_)))
    }

    /// Whether it is known without a simulation.
    pub(crate) fn is_constant(self) -> bool {
        match self {
            Form::Constant | Form::Number(_) | Form::Unsized | Form::Literal | Form::Text(_) =>
                true,
            _ => false,
        }
    }

    /// Whether such, as a statement, is a call that only a simulation runs.
    pub(crate) fn is_simulated(self) -> bool {
        match self {
            Form::Call(_, is_simulated) => is_simulated,
            _ => false,
        }
    }

    /// The rule that tells such as an operand.
    pub(crate) fn operand_rule(self) -> Option<Rule> {
        match self {
            Form::Edge => Some(Rule::EdgeInExpression),
            Form::Call(true, _) => Some(Rule::SystemCallWithoutArguments),
            _ => None,
        }
    }

    /// The rule that tells such among the parts of a concatenation.
    pub(crate) fn part_rule(self) -> Option<Rule> {
        match self {
            Form::Number(_) | Form::Unsized => Some(Rule::UnsizedInConcat),
            _ => self.operand_rule(),
        }
    }

    /// The rule that tells such as a number of times.
    pub(crate) fn times_rule(self) -> Option<Rule> {
        match self {
            Form::Signal(_) | Form::Bit | Form::Part => Some(Rule::ReplicationBySignal),
            Form::Number(times) if times < 0 => Some(Rule::NegativeReplication),
            _ => self.operand_rule(),
        }
    }

    /// What a select of one element or bit of such is. A scalar is its own only bit.
    pub(crate) fn element(self) -> Form {
        match self {
            Form::Signal(Some(1)) | Form::Bit => Form::Bit,
            Form::Signal(Some(dimensions)) => Form::Signal(Some(dimensions.saturating_sub(1))),
            Form::Signal(None) => Form::Signal(None),
            Form::Constant => Form::Constant,
            Form::Other => Form::Other,
            _ => Form::Computed,
        }
    }

    /// What a select of some of its bits is.
    pub(crate) fn part(self) -> Form {
        match self {
            Form::Signal(_) | Form::Bit | Form::Part => Form::Part,
            Form::Constant => Form::Constant,
            Form::Other => Form::Other,
            _ => Form::Computed,
        }
    }
}

/// What a type is made of.
#[derive(Clone, Copy, PartialEq)]
pub(crate) enum Base {
    Scalar,
    Vector,
    Integer,
    Int,
    /// A type that is declared elsewhere.
    External,
    /// A type of a package.
    Package,
}

/// What a type is, as far as a rule asks.
#[derive(Clone, Copy)]
pub(crate) struct TypeForm {
    pub(crate) base: Base,
    /// An `integer` or an `int` without a sign.
    pub(crate) is_unsigned: bool,
    /// How many packed dimensions stand before its base.
    pub(crate) packed: usize,
    /// How many dimensions stand after the name.
    pub(crate) unpacked: usize,
}

impl TypeForm {
    /// The type of this base, which is no array.
    pub(crate) fn of(base: Base) -> TypeForm {
        TypeForm {
            base,
            is_unsigned: false,
            packed: 0,
            unpacked: 0,
        }
    }

    /// Whether the type is declared elsewhere.
    pub(crate) fn is_named(self) -> bool {
        matches!(self.base, Base::External | Base::Package)
    }

    /// Whether several packed dimensions stand before the name.
    pub(crate) fn is_packed_array(self) -> bool {
        match self.base {
            Base::Vector => self.packed > 0,
            Base::Scalar => self.packed > 1,
            _ => false,
        }
    }

    /// How many dimensions can be selected from, where that is known.
    pub(crate) fn dimensions(self) -> Option<usize> {
        let own = match self.base {
            Base::Scalar => 0,
            Base::Vector | Base::Integer | Base::Int => 1,
            Base::External | Base::Package => return None,
        };
        Some(
            self.packed
                .saturating_add(self.unpacked)
                .saturating_add(own),
        )
    }

    /// A net or a variable of the type.
    pub(crate) fn signal(self) -> Form {
        Form::Signal(self.dimensions())
    }
}
