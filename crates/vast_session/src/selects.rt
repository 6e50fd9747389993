//! The selects that lines make: where a text is refused, it is over one.

use vast_script::Answer;
use xlsynth_vast::Expr;

/// A bit select or a part select.
#[derive(Clone, Copy)]
pub(crate) struct Select {
    pub(crate) expression: Expr,
    /// The line of its call.
    pub(crate) line: usize,
}

/// Keeps the line of an answer that is a select. There is room for one more.
#[inline(always)]
pub(crate) fn keep_select(selects: &mut Vec<Select>, answer: Answer, line: usize) {
    let expression = match answer {
        Answer::Index(index) => index.to_expr(),
        Answer::Slice(slice) => slice.to_expr(),
        _ => return,
    };
    let _ = selects.push(Select { expression, line });
}
