//! What the program tells of itself.

/// How the program is called.
pub(crate) const HELP: &str = "\
vast_check [FILE ..]
vast_check --same OLD NEW

Tells of each file whether the grammar of emitted files derives it: `FILE: derived`, or the first token at which no rule
of the grammar goes on, with its line, its column in characters, and what could stand there:
`FILE:12:9: final: expected a member or endmodule`. Without FILE, or where FILE is `-`, standard input is read.

With --same it tells whether both files are derived as one tree, whatever their spaces, comments and redundant
parentheses: `same`, or where they begin to differ, with the line of each there:
`old.sv:14: new.sv:17: assign y = a; -> assign y = b;`.

The grammar is of what `vast_replay` and its kin print, in any spacing and with any parentheses and comments. It is a
small part of SystemVerilog and knows no scopes: a good file of another tool may well not be derived.

  --help     prints this, --version the version
  --         before files whose names begin with `-`

Status 0: each file is derived, or the two are the same. 1: a file isn't, or they aren't. 2: a word is unknown, a file
can't be read or has more than 16777216 bytes, a write failed, or memory was refused.
";

/// Which program it is.
pub(crate) const VERSION: &str = "vast_check, with the grammar of xlsynth-vast 0.79.0's output\n";
