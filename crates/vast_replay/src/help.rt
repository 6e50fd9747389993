//! What the program tells of itself.

/// How the program is called.
pub(crate) const HELP: &str = "\
vast_replay [--json] [--map] [--lint] [--strict] [--again] [FILE ..]
vast_replay --check [--lint] [--strict] [FILE ..]
vast_replay --plain [FILE ..]
vast_replay --pack [FILE ..]
vast_replay --session [--lint]
vast_replay --calls [--json]

Makes Verilog files of lists of calls, and prints them. Without FILE, or where FILE is `-`, the lists are read from
standard input.

  --check    makes the lists and prints faults alone
  --json     prints a line of JSON for each list
  --map      prints each line of a text after the number of the line of the list that it comes from, and a tab; with
             --json as a member, `map`
  --lint     tells on standard error, as faults are told, what the calls print that is no SystemVerilog or Verilog, or
             that Icarus, Verilator or Yosys refuses; with --json as a member, `warnings`, and so with --session, where
             `?Warnings` asks for what the list's end would tell
  --strict   --lint, and status 1 where anything was told
  --plain    prints whether each list's file is plain, `counter.list: plain`; else the first call that makes it so,
             `counter.list:12: AddWire: not plain`, and status 1
  --pack     writes each list in packed form, as bytes; a list in that form is told by its first bytes, and is taken
             without words and with --check
  --session  answers each line of standard input at once, by a line of JSON
  --calls    prints the table of all calls, with --json as JSON
  --again    tries once more what was refused memory, for tests that refuse it
  --help     prints this, --version the version
  --         before files whose names begin with `-`

Status 0: all was made. 1: a list was refused, a read or a write failed, or memory was refused. 2: a line is not in the
form, a word is unknown, or a file can't be read. 3: a list behind a header was refused.
";

/// Which program it is.
pub(crate) const VERSION: &str = "vast_replay, with the calls of xlsynth-vast 0.79.0\n";
