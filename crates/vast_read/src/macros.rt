//! What is written often.

/// The part that is wanted; where there is none, nothing is made, and the call is over.
macro_rules! wanted {
    ($part:expr) => {
        match $part {
            Some(part) => part,
            None => return Ok(()),
        }
    };
}

/// Whether a value is of this variant, and what it holds is this.
macro_rules! same {
    ($value:expr, $of:ident :: $variant:ident, $held:expr) => {
        match $value {
            $of::$variant(same) => $held == same,
            _ => false,
        }
    };
}

pub(crate) use same;
pub(crate) use wanted;
