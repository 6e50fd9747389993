//! How often what was refused memory is tried.

/// How often what was refused memory is tried.
#[derive(Clone, Copy)]
pub enum Tries {
    /// Once.
    Once,
    /// Once more, on a file that must be as it was.
    Again,
}

/// What is made; where that fails and the tries allow it, what is made the second time. `$memory` is the pattern of the
/// failures that are refusals of memory; without it each is.
#[macro_export]
macro_rules! tried {
    ($tries:expr, $made:expr) => {
        match $made {
            Err(_) if matches!($tries, $crate::Tries::Again) => $made,
            made => made,
        }
    };
    ($tries:expr, $made:expr, $memory:pat) => {
        match $made {
            Err($memory) if matches!($tries, $crate::Tries::Again) => $made,
            made => made,
        }
    };
}
