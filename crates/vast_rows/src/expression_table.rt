//! The tokens of expressions, as they are laid out for the machine. Written by `tools/rows`.
//!
//! That these are the rows of the page (`specs/Internal/ExpressionPage.antt`) and what is known of them is proved.

ghost use Rattle.std.specs.Prelude.{◌≡◌, true};
ghost use Rattle.vast_rows.specs.Facts.{fact_in, facts_view};
ghost use Rattle.vast_rows.specs.Internal.ExpressionPage.{Bound, Expression, Target, expression_page, part_number};
ghost use Rattle.vast_rows.specs.Internal.Reaches.{are_plain};
ghost use Rattle.vast_rows.specs.Kinds.{has};
ghost use Rattle.vast_rows.specs.Rows.{bare, rows_view};

use crate::grammar::Item::{self, Rule, Token};
use crate::grammar::{Fact, Row, Table};

#[rattlefmt::skip]
static ITEMS: [Item; 129] = [
    Rule(2), Rule(4), Rule(8), Rule(6), Rule(3), Rule(2), Rule(8), Rule(6), Token(43), Token(48), Token(49),
    Token(30), Token(28), Token(29), Rule(5), Rule(2), Rule(4), Token(21), Rule(0), Token(16), Rule(0), Token(26),
    Token(27), Token(28), Token(29), Token(30), Token(31), Token(32), Token(33), Token(34), Token(35), Token(36),
    Token(37), Token(38), Token(39), Token(40), Token(41), Token(42), Token(43), Token(44), Token(45), Token(46),
    Token(47), Token(11), Rule(0), Rule(7), Rule(6), Token(18), Token(1), Rule(6), Token(12), Token(16), Rule(0),
    Token(12), Token(23), Token(6), Token(12), Token(1), Rule(12), Token(6), Rule(13), Token(7), Token(8), Token(3),
    Rule(11), Rule(10), Rule(11), Token(9), Rule(0), Token(10), Rule(13), Token(25), Token(13), Rule(14), Token(14),
    Token(13), Rule(16), Rule(18), Rule(9), Token(25), Token(9), Rule(0), Token(10), Token(4), Token(5), Token(9),
    Rule(14), Token(10), Rule(13), Token(9), Rule(14), Token(10), Token(22), Token(1), Rule(9), Rule(9), Rule(0),
    Rule(15), Token(15), Rule(0), Rule(15), Token(14), Rule(0), Rule(17), Rule(15), Token(14), Token(13), Rule(14),
    Token(14), Token(14), Token(63), Token(67), Token(68), Token(64), Token(65), Rule(2), Rule(20), Rule(21), Rule(2),
    Rule(20), Token(39), Token(40), Token(41), Token(42), Token(43), Token(44), Token(45), Token(46), Token(47),
];

#[rattlefmt::skip]
static ROWS: [Row; 86] = [
    Row { rule: 0, action: None, looks: 0x1b80030800720023fa, items: 0, items_end: 2 },
    Row { rule: 1, action: None, looks: 0x1b80000000020023fa, items: 2, items_end: 4 },
    Row { rule: 2, action: None, looks: 0x3080070000000, items: 4, items_end: 6 },
    Row { rule: 2, action: None, looks: 0x1b80000000020023fa, items: 6, items_end: 8 },
    Row { rule: 3, action: None, looks: 0x80000000000, items: 8, items_end: 9 },
    Row { rule: 3, action: None, looks: 0x1000000000000, items: 9, items_end: 10 },
    Row { rule: 3, action: None, looks: 0x2000000000000, items: 10, items_end: 11 },
    Row { rule: 3, action: None, looks: 0x40000000, items: 11, items_end: 12 },
    Row { rule: 3, action: None, looks: 0x10000000, items: 12, items_end: 13 },
    Row { rule: 3, action: None, looks: 0x20000000, items: 13, items_end: 14 },
    Row { rule: 4, action: None, looks: 0x81f401, items: 14, items_end: 14 },
    Row { rule: 4, action: None, looks: 0xfffffc000000, items: 14, items_end: 17 },
    Row { rule: 4, action: None, looks: 0x200000, items: 17, items_end: 21 },
    Row { rule: 5, action: None, looks: 0x4000000, items: 21, items_end: 22 },
    Row { rule: 5, action: None, looks: 0x8000000, items: 22, items_end: 23 },
    Row { rule: 5, action: None, looks: 0x10000000, items: 23, items_end: 24 },
    Row { rule: 5, action: None, looks: 0x20000000, items: 24, items_end: 25 },
    Row { rule: 5, action: None, looks: 0x40000000, items: 25, items_end: 26 },
    Row { rule: 5, action: None, looks: 0x80000000, items: 26, items_end: 27 },
    Row { rule: 5, action: None, looks: 0x100000000, items: 27, items_end: 28 },
    Row { rule: 5, action: None, looks: 0x200000000, items: 28, items_end: 29 },
    Row { rule: 5, action: None, looks: 0x400000000, items: 29, items_end: 30 },
    Row { rule: 5, action: None, looks: 0x800000000, items: 30, items_end: 31 },
    Row { rule: 5, action: None, looks: 0x1000000000, items: 31, items_end: 32 },
    Row { rule: 5, action: None, looks: 0x2000000000, items: 32, items_end: 33 },
    Row { rule: 5, action: None, looks: 0x4000000000, items: 33, items_end: 34 },
    Row { rule: 5, action: None, looks: 0x8000000000, items: 34, items_end: 35 },
    Row { rule: 5, action: None, looks: 0x10000000000, items: 35, items_end: 36 },
    Row { rule: 5, action: None, looks: 0x20000000000, items: 36, items_end: 37 },
    Row { rule: 5, action: None, looks: 0x40000000000, items: 37, items_end: 38 },
    Row { rule: 5, action: None, looks: 0x80000000000, items: 38, items_end: 39 },
    Row { rule: 5, action: None, looks: 0x100000000000, items: 39, items_end: 40 },
    Row { rule: 5, action: None, looks: 0x200000000000, items: 40, items_end: 41 },
    Row { rule: 5, action: None, looks: 0x400000000000, items: 41, items_end: 42 },
    Row { rule: 5, action: None, looks: 0x800000000000, items: 42, items_end: 43 },
    Row { rule: 6, action: None, looks: 0xfffffca1f401, items: 43, items_end: 43 },
    Row { rule: 6, action: None, looks: 0x800, items: 43, items_end: 47 },
    Row { rule: 6, action: None, looks: 0x40000, items: 47, items_end: 50 },
    Row { rule: 7, action: None, looks: 0x1000, items: 50, items_end: 51 },
    Row { rule: 7, action: None, looks: 0x10000, items: 51, items_end: 54 },
    Row { rule: 7, action: None, looks: 0x800000, items: 54, items_end: 57 },
    Row { rule: 8, action: None, looks: 0x2, items: 57, items_end: 59 },
    Row { rule: 8, action: None, looks: 0x40, items: 59, items_end: 61 },
    Row { rule: 8, action: None, looks: 0x80, items: 61, items_end: 62 },
    Row { rule: 8, action: None, looks: 0x100, items: 62, items_end: 63 },
    Row { rule: 8, action: None, looks: 0x8, items: 63, items_end: 65 },
    Row { rule: 8, action: None, looks: 0x30, items: 65, items_end: 67 },
    Row { rule: 8, action: None, looks: 0x200, items: 67, items_end: 71 },
    Row { rule: 8, action: None, looks: 0x2000000, items: 71, items_end: 75 },
    Row { rule: 8, action: None, looks: 0x2000, items: 75, items_end: 77 },
    Row { rule: 8, action: None, looks: 0x1b8000000000000000, items: 77, items_end: 79 },
    Row { rule: 9, action: None, looks: 0x2000000, items: 79, items_end: 83 },
    Row { rule: 10, action: None, looks: 0x10, items: 83, items_end: 84 },
    Row { rule: 10, action: None, looks: 0x20, items: 84, items_end: 85 },
    Row { rule: 11, action: None, looks: 0xfffffca5fc01, items: 85, items_end: 85 },
    Row { rule: 11, action: None, looks: 0x200, items: 85, items_end: 88 },
    Row { rule: 12, action: None, looks: 0xfffffea5fc01, items: 88, items_end: 89 },
    Row { rule: 12, action: None, looks: 0x200, items: 89, items_end: 92 },
    Row { rule: 12, action: None, looks: 0x400000, items: 92, items_end: 95 },
    Row { rule: 13, action: None, looks: 0xfffffca5fc01, items: 95, items_end: 95 },
    Row { rule: 13, action: None, looks: 0x2000000, items: 95, items_end: 96 },
    Row { rule: 14, action: None, looks: 0x4400, items: 96, items_end: 96 },
    Row { rule: 14, action: None, looks: 0x1b80030800720023fa, items: 96, items_end: 98 },
    Row { rule: 15, action: None, looks: 0x4400, items: 98, items_end: 98 },
    Row { rule: 15, action: None, looks: 0x8000, items: 98, items_end: 101 },
    Row { rule: 16, action: None, looks: 0x4000, items: 101, items_end: 102 },
    Row { rule: 16, action: None, looks: 0x1b80030800720023fa, items: 102, items_end: 104 },
    Row { rule: 17, action: None, looks: 0xc400, items: 104, items_end: 106 },
    Row { rule: 17, action: None, looks: 0x2000, items: 106, items_end: 110 },
    Row { rule: 18, action: None, looks: 0x8000000000000000, items: 110, items_end: 111 },
    Row { rule: 18, action: None, looks: 0x80000000000000000, items: 111, items_end: 112 },
    Row { rule: 18, action: None, looks: 0x100000000000000000, items: 112, items_end: 113 },
    Row { rule: 18, action: None, looks: 0x10000000000000000, items: 113, items_end: 114 },
    Row { rule: 18, action: None, looks: 0x20000000000000000, items: 114, items_end: 115 },
    Row { rule: 19, action: None, looks: 0x1b80030800720023fa, items: 115, items_end: 117 },
    Row { rule: 20, action: None, looks: 0x1, items: 117, items_end: 117 },
    Row { rule: 20, action: None, looks: 0xff8000000000, items: 117, items_end: 120 },
    Row { rule: 21, action: None, looks: 0x8000000000, items: 120, items_end: 121 },
    Row { rule: 21, action: None, looks: 0x10000000000, items: 121, items_end: 122 },
    Row { rule: 21, action: None, looks: 0x20000000000, items: 122, items_end: 123 },
    Row { rule: 21, action: None, looks: 0x40000000000, items: 123, items_end: 124 },
    Row { rule: 21, action: None, looks: 0x80000000000, items: 124, items_end: 125 },
    Row { rule: 21, action: None, looks: 0x100000000000, items: 125, items_end: 126 },
    Row { rule: 21, action: None, looks: 0x200000000000, items: 126, items_end: 127 },
    Row { rule: 21, action: None, looks: 0x400000000000, items: 127, items_end: 128 },
    Row { rule: 21, action: None, looks: 0x800000000000, items: 128, items_end: 129 },
];

#[rattlefmt::skip]
static FACTS: [Fact; 22] = [
    Fact { begins: 0x1b80030800720023fa, follow: 0x81f401, empty: false, rank: 3, first_row: 0 },
    Fact { begins: 0x1b80000000020023fa, follow: 0x1, empty: false, rank: 2, first_row: 1 },
    Fact { begins: 0x1b80030800720023fa, follow: 0xfffffca1f401, empty: false, rank: 2, first_row: 2 },
    Fact { begins: 0x3080070000000, follow: 0x1b80030800720023fa, empty: false, rank: 0, first_row: 4 },
    Fact { begins: 0xfffffca1f401, follow: 0x81f401, empty: true, rank: 1, first_row: 10 },
    Fact { begins: 0xfffffc000000, follow: 0x1b80030800720023fa, empty: false, rank: 0, first_row: 13 },
    Fact { begins: 0xfffffca5fc01, follow: 0xfffffca1f401, empty: true, rank: 0, first_row: 35 },
    Fact { begins: 0x811000, follow: 0xfffffca5fc01, empty: false, rank: 0, first_row: 38 },
    Fact { begins: 0x1b80000000020023fa, follow: 0xfffffca5fc01, empty: false, rank: 1, first_row: 41 },
    Fact { begins: 0x2000000, follow: 0xfffffca5fc01, empty: false, rank: 0, first_row: 51 },
    Fact { begins: 0x30, follow: 0xfffffca5fe01, empty: false, rank: 0, first_row: 52 },
    Fact { begins: 0xfffffca5fe01, follow: 0xfffffca5fc01, empty: true, rank: 0, first_row: 54 },
    Fact { begins: 0xfffffee5fe01, follow: 0xfffffca5fc01, empty: true, rank: 2, first_row: 56 },
    Fact { begins: 0xfffffea5fc01, follow: 0xfffffca5fc01, empty: true, rank: 1, first_row: 59 },
    Fact { begins: 0x1b80030800720067fa, follow: 0x4400, empty: true, rank: 4, first_row: 61 },
    Fact { begins: 0xc400, follow: 0x4400, empty: true, rank: 0, first_row: 63 },
    Fact { begins: 0x1b80030800720063fa, follow: 0xfffffca5fc01, empty: false, rank: 4, first_row: 65 },
    Fact { begins: 0xe400, follow: 0xfffffca5fc01, empty: false, rank: 1, first_row: 67 },
    Fact { begins: 0x1b8000000000000000, follow: 0x2000000, empty: false, rank: 0, first_row: 69 },
    Fact { begins: 0x1b80030800720023fa, follow: 0x1, empty: false, rank: 3, first_row: 74 },
    Fact { begins: 0xff8000000001, follow: 0x1, empty: true, rank: 1, first_row: 75 },
    Fact { begins: 0xff8000000000, follow: 0x1b80030800720023fa, empty: false, rank: 0, first_row: 77 },
];

#[rattlefmt::skip]
static FIRSTS: [u128; 22] = [
    0x1b80030800720023fa, 0x1b80000000020023fa, 0x1b80030800720023fa, 0x3080070000000, 0xfffffc200000, 0xfffffc000000,
    0x40800, 0x811000, 0x1b80000000020023fa, 0x2000000, 0x30, 0x200, 0x2400200, 0x2000000, 0x1b80030800720023fa,
    0x8000, 0x1b80030800720063fa, 0xe000, 0x1b8000000000000000, 0x1b80030800720023fa, 0xff8000000000, 0xff8000000000,
];

/// The tokens of expressions.
pub(crate) fn expressions() -> Table
    ensures page { bare (rows_view result.items.now result.rows.now) ≡ expression_page }
    ensures expression_stands_last { has (fact_in (facts_view result.facts.now) (part_number Expression)).follow 0 ≡ true }
    ensures target_stands_last { has (fact_in (facts_view result.facts.now) (part_number Target)).follow 0 ≡ true }
    ensures bound_stands_last { has (fact_in (facts_view result.facts.now) (part_number Bound)).follow 0 ≡ true }
    ensures plain { are_plain (rows_view result.items.now result.rows.now) ≡ true }
{
    Table {
        items: &ITEMS,
        rows: &ROWS,
        facts: &FACTS,
        firsts: &FIRSTS,
    }
}
