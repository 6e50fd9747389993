//! Names, directives and comments that a tool takes for more than they are.

ghost use Rattle.std.specs.Prelude.{◌≡◌};
ghost use Rattle.std.specs.List.{list_all};
ghost use Rattle.vast_literal.specs.Scan.{is_letter, is_word_byte};
ghost use Rattle.vast_lint.specs.Internal.Forms.{is_simple};

use crate::rule::Rule;
use xlsynth_vast::{VastFileType, is_system_verilog_keyword};

/// The compiler directives (IEEE 1800-2017, 22).
static DIRECTIVES: [&str; 20] = [
    "begin_keywords",
    "celldefine",
    "default_nettype",
    "define",
    "else",
    "elsif",
    "end_keywords",
    "endcelldefine",
    "endif",
    "ifdef",
    "ifndef",
    "include",
    "line",
    "nounconnected_drive",
    "pragma",
    "resetall",
    "timescale",
    "unconnected_drive",
    "undef",
    "undefineall",
];

/// The keywords of IEEE 1364-2005, Annex B, in the order of their bytes.
#[rattlefmt::skip]
static VERILOG_KEYWORDS: [&str; 124] = [
    "always", "and", "assign", "automatic", "begin", "buf", "bufif0", "bufif1", "case", "casex",
    "casez", "cell", "cmos", "config", "deassign", "default", "defparam", "design", "disable",
    "edge", "else", "end", "endcase", "endconfig", "endfunction", "endgenerate", "endmodule",
    "endprimitive", "endspecify", "endtable", "endtask", "event", "for", "force", "forever", "fork",
    "function", "generate", "genvar", "highz0", "highz1", "if", "ifnone", "incdir", "include",
    "initial", "inout", "input", "instance", "integer", "join", "large", "liblist", "library",
    "localparam", "macromodule", "medium", "module", "nand", "negedge", "nmos", "nor",
    "noshowcancelled", "not", "notif0", "notif1", "or", "output", "parameter", "pmos", "posedge",
    "primitive", "pull0", "pull1", "pulldown", "pullup", "pulsestyle_ondetect",
    "pulsestyle_onevent", "rcmos", "real", "realtime", "reg", "release", "repeat", "rnmos", "rpmos",
    "rtran", "rtranif0", "rtranif1", "scalared", "showcancelled", "signed", "small", "specify",
    "specparam", "strong0", "strong1", "supply0", "supply1", "table", "task", "time", "tran",
    "tranif0", "tranif1", "tri", "tri0", "tri1", "triand", "trior", "trireg", "unsigned", "use",
    "uwire", "vectored", "wait", "wand", "weak0", "weak1", "while", "wire", "wor", "xnor", "xor",
];

/// Whether the name of a macro is that of a compiler directive (IEEE 1800-2017, 22).
pub(crate) fn is_directive(name: &str) -> bool {
    DIRECTIVES.iter().any(|directive| *directive == name)
}

/// Whether the word is a keyword of the dialect.
pub(crate) fn is_keyword(dialect: VastFileType, word: &str) -> bool {
    match dialect {
        VastFileType::SystemVerilog => is_system_verilog_keyword(word),
        VastFileType::Verilog => VERILOG_KEYWORDS.iter().any(|keyword| *keyword == word),
    }
}

fn begins_name(byte: u8) -> bool
    ensures { result ≡ is_letter byte }
{
    byte.is_ascii_alphabetic() || byte == b'_'
}

fn continues_name(byte: u8) -> bool
    ensures { result ≡ is_word_byte byte }
{
    begins_name(byte) || byte.is_ascii_digit() || byte == b'$'
}

/// Whether a name may go on with each of these bytes.
fn continue_name(bytes: &[u8]) -> bool
    ensures { result ≡ list_all is_word_byte bytes.now }
{
    bytes.iter().all(|byte| continues_name(*byte))
}

/// Whether the bytes are a simple identifier (IEEE 1800-2017, 5.6), be it a keyword or not: a letter of ASCII or `_`, and
/// then letters, digits, `_` and `$`.
fn is_simple(bytes: &[u8]) -> bool
    ensures { result ≡ is_simple bytes.now }
{
    match bytes.split_first() {
        Some((first, rest)) => begins_name(*first) && continue_name(rest),
        None => false,
    }
}

/// Whether the text is a simple identifier.
fn is_identifier(text: &str) -> bool {
    is_simple(text.as_bytes())
}

/// Whether the text is an escaped identifier (IEEE 1800-2017, 5.6.1): `\`, printable characters, and a space.
fn is_escaped(text: &str) -> bool {
    match text.as_bytes() {
        [b'\\', characters @ .., b' '] => {
            !characters.is_empty() && characters.iter().all(|byte| byte.is_ascii_graphic())
        }
        _ => false,
    }
}

/// The rule that tells a declared name.
pub(crate) fn name_rule(dialect: VastFileType, name: &str) -> Option<Rule> {
    if is_keyword(dialect, name) {
        return Some(Rule::Keyword);
    }
    match name {
        "bool" | "wreal" | "PATHPULSE$" => Some(Rule::IcarusWord),
        "mailbox" | "process" | "semaphore" => Some(Rule::VerilatorWord),
        _ if is_identifier(name) || is_escaped(name) => None,
        _
            if name
                .strip_prefix('$')
                .is_some_and(|rest| is_identifier(rest)) => { Some(Rule::SystemName) }
        _ => Some(Rule::NotAName),
    }
}

/// The rule that tells one line of a comment.
fn comment_line_rule(line: &str) -> Option<Rule> {
    let line = line.trim_start_matches([' ', '\t']);
    if line
        .strip_prefix("verilator")
        .is_some_and(|rest| !rest.is_empty())
    {
        return Some(Rule::VerilatorComment);
    }
    let order = line
        .strip_prefix("synopsys")
        .or(line.strip_prefix("synthesis"));
    if order.is_some_and(|rest| rest.starts_with([' ', '\t'])) {
        return Some(Rule::SynthesisComment);
    }
    None
}

/// The rule that tells a comment of this text, of which each line stands after `//`: that of its first line which a tool
/// takes for an order.
pub(crate) fn comment_rule(text: &str) -> Option<Rule> {
    text.split('\n').find_map(|line| comment_line_rule(line))
}
