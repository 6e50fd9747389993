//! How far texts begin files.

use vast_literal::{Key, Mark, Sign};
use vast_read::{longest_front, underived_at};
use vast_rows::Kind;

const OPEN: Kind = Kind::Mark(Mark::OpenParen);

const CLOSE: Kind = Kind::Mark(Mark::CloseParen);

const SEMICOLON: Kind = Kind::Mark(Mark::Semicolon);

/// A text, the part of it that begins a file, whether that is one, kinds that could stand after it, and some that could not.
type Row = (
    &'static str,
    &'static str,
    bool,
    &'static [Kind],
    &'static [Kind],
);

const ROWS: [Row; 20] = [
    (
        "",
        "",
        true,
        &[
            Kind::IncludeWord,
            Kind::Reserved(Key::Import),
            Kind::Reserved(Key::Typedef),
            Kind::Reserved(Key::Module),
        ],
        &[Kind::Reserved(Key::EndModule)],
    ),
    (
        "module m; final a",
        "module m; ",
        false,
        &[
            Kind::Reserved(Key::AlwaysComb),
            Kind::Reserved(Key::EndModule),
        ],
        &[Kind::Reserved(Key::End)],
    ),
    (
        "module m; always @ a",
        "module m; always @ ",
        false,
        &[OPEN, Kind::Operator(Sign::Times)],
        &[Kind::Word, Kind::Operator(Sign::Plus)],
    ),
    (
        "module m; assign a = (b + ; endmodule",
        "module m; assign a = (b + ",
        false,
        &[Kind::Word, OPEN],
        &[SEMICOLON, CLOSE],
    ),
    (
        "module m; for (genvar i = 0; j < 4;",
        "module m; for (genvar i = 0; ",
        false,
        &[Kind::Word, OPEN],
        &[Kind::Number, SEMICOLON],
    ),
    (
        "module m; for (genvar i = 0; ((i) + 1 < 4;",
        "module m; for (genvar i = 0; ((i) ",
        false,
        &[CLOSE, Kind::Operator(Sign::Less)],
        &[Kind::Operator(Sign::Plus), SEMICOLON],
    ),
    (
        "module m; for (genvar i = 0; ((i) < 4; ",
        "module m; for (genvar i = 0; ((i) < 4",
        false,
        &[CLOSE, Kind::Operator(Sign::Plus)],
        &[SEMICOLON, Kind::Operator(Sign::Less)],
    ),
    (
        "module m; for (genvar i = 0; ((i) < 4) ||",
        "module m; for (genvar i = 0; ((i) < 4) ",
        false,
        &[SEMICOLON],
        &[CLOSE, Kind::Operator(Sign::LogicOr)],
    ),
    (
        "module m; for (genvar i = 0; i < 4; i = i + 2)",
        "module m; for (genvar i = 0; i < 4; i = i + ",
        false,
        &[Kind::Number],
        &[Kind::Word],
    ),
    (
        "module m; initial begin for (genvar",
        "module m; initial begin for (",
        false,
        &[Kind::Reserved(Key::Int)],
        &[Kind::Reserved(Key::Genvar), Kind::Word],
    ),
    (
        "`include \"a.svh\" endmodule",
        "`include \"a.svh\" ",
        true,
        &[Kind::IncludeWord, Kind::Reserved(Key::Module)],
        &[Kind::Quoted],
    ),
    (
        "import p::q;",
        "import p::",
        false,
        &[Kind::Operator(Sign::Times)],
        &[Kind::Word, SEMICOLON],
    ),
    (
        "typedef struct { logic a; } t;",
        "typedef struct ",
        false,
        &[Kind::Reserved(Key::Packed)],
        &[Kind::Mark(Mark::OpenBrace), Kind::Word],
    ),
    (
        "typedef enum logic { A, } t;",
        "typedef enum logic { A, ",
        false,
        &[Kind::Word],
        &[Kind::Mark(Mark::CloseBrace), Kind::Mark(Mark::Comma)],
    ),
    (
        "module m; wire a; é",
        "module m; wire a; ",
        false,
        &[Kind::Reserved(Key::Wire)],
        &[Kind::Mark(Mark::Comma)],
    ),
    (
        "module m; t 1",
        "module m; t ",
        false,
        &[
            Kind::Word,
            Kind::Mark(Mark::Hash),
            Kind::Mark(Mark::DoubleColon),
            Kind::Mark(Mark::OpenBracket),
        ],
        &[OPEN, SEMICOLON],
    ),
    (
        "module m; t x = 1",
        "module m; t x ",
        false,
        &[OPEN, SEMICOLON, Kind::Mark(Mark::OpenBracket)],
        &[Kind::Mark(Mark::Comma), Kind::Word],
    ),
    (
        "module m; initial begin $display(a) end",
        "module m; initial begin $display(a) ",
        false,
        &[SEMICOLON, Kind::Mark(Mark::Assign)],
        &[CLOSE, Kind::Reserved(Key::End)],
    ),
    (
        "module m; assign a = s.1",
        "module m; assign a = s.",
        false,
        &[Kind::Word],
        &[Kind::Number, SEMICOLON],
    ),
    (
        "module m; assign s.a b",
        "module m; assign s.a ",
        false,
        &[Kind::Mark(Mark::Dot), Kind::Mark(Mark::Assign)],
        &[OPEN, SEMICOLON],
    ),
];

#[test]
fn a_front_ends_before_the_first_token_that_no_file_has(rt: HostRuntime) {
    for (text, before, ends, on, off) in &ROWS {
        let front = longest_front(rt.alloc(), text).expect(&rt, "memory");
        assert_eq!(rt; front.place, before.len());
        let at = underived_at(rt.alloc(), text).expect(&rt, "memory");
        assert!(rt; text.is_empty() || at == Some(before.len()));
        assert_eq!(rt; front.next.ends, *ends);
        for kind in on.iter() {
            assert!(rt; front.next.has(*kind));
        }
        for kind in off.iter() {
            assert!(rt; !front.next.has(*kind));
        }
    }
}

#[test]
fn a_file_may_end_where_it_is_whole(rt: HostRuntime) {
    let front = longest_front(rt.alloc(), "module m; endmodule").expect(&rt, "memory");
    assert_eq!(rt; front.place, 19);
    assert!(rt; front.next.ends);
    assert!(rt; front.next.has(Kind::Reserved(Key::Module)));
}
