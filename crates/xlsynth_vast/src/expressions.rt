//! Expressions.

mod arithmetic;
mod casts;
mod comparisons;
mod lists;
mod literals;
mod names;
mod selects;
mod unary;
