//! The keywords of Verilog and SystemVerilog.

ghost use Rattle.std.specs.Prelude.{◌≡◌, length, map};
ghost use Rattle.vast_literal.specs.Keyword.{keywords, is_keyword};
ghost use Rattle.vast_literal.specs.Tokens.{key_text, key_written, reserved_keys};

use crate::token::Key;

/// The one table of keywords, in the order of their bytes, with the key of each that the grammar uses: passed to `take`,
/// behind `first`.
#[rattlefmt::skip]
macro_rules! keywords {
    ($take:ident $(, $first:expr)?) => {
        $take! {
            $($first;)?
            "accept_on", "alias", "always" Always, "always_comb" AlwaysComb, "always_ff" AlwaysFF,
            "always_latch" AlwaysLatch, "and", "assert", "assign" Assign, "assume",
            "automatic" Automatic, "before", "begin" Begin, "bind", "bins", "binsof", "bit", "break", "buf", "bufif0",
            "bufif1", "byte", "case" Case, "casex" Casex, "casez" Casez, "cell", "chandle",
            "checker", "class", "clocking", "cmos", "config", "const", "constraint", "context",
            "continue", "cover", "covergroup", "coverpoint", "cross", "deassign",
            "default" Default, "defparam", "design", "disable", "dist", "do", "edge", "else" Else,
            "end" End, "endcase" EndCase, "endchecker", "endclass", "endclocking", "endconfig",
            "endfunction" EndFunction, "endgenerate", "endgroup", "endinterface",
            "endmodule" EndModule, "endpackage", "endprimitive", "endprogram", "endproperty",
            "endsequence", "endspecify", "endtable", "endtask", "enum" Enum, "event", "eventually",
            "expect", "export", "extends", "extern", "final", "first_match", "for" For, "force",
            "foreach", "forever", "fork", "forkjoin", "function" Function, "generate",
            "genvar" Genvar, "global", "highz0", "highz1", "if" If, "iff", "ifnone", "ignore_bins",
            "illegal_bins", "implements", "implies", "import" Import, "incdir", "include",
            "initial" Initial, "inout" InOut, "input" Input, "inside", "instance", "int" Int, "integer" Integer,
            "interconnect", "interface", "intersect", "join", "join_any", "join_none", "large",
            "let", "liblist", "library", "local", "localparam" Localparam, "logic" Logic,
            "longint", "macromodule", "matches", "medium", "modport", "module" Module, "nand",
            "negedge" Negedge, "nettype", "new", "nexttime", "nmos", "nor", "noshowcancelled",
            "not", "notif0", "notif1", "null", "or" Or, "output" Output, "package", "packed" Packed,
            "parameter" Parameter, "pmos", "posedge" Posedge, "primitive", "priority", "program",
            "property", "protected", "pull0", "pull1", "pulldown", "pullup", "pulsestyle_ondetect",
            "pulsestyle_onevent", "pure", "rand", "randc", "randcase", "randsequence", "rcmos",
            "real", "realtime", "ref", "reg" Reg, "reject_on", "release", "repeat", "restrict",
            "return", "rnmos", "rpmos", "rtran", "rtranif0", "rtranif1", "s_always",
            "s_eventually", "s_nexttime", "s_until", "s_until_with", "scalared", "sequence",
            "shortint", "shortreal", "showcancelled", "signed" Signed, "small", "soft", "solve",
            "specify", "specparam", "static", "string", "strong", "strong0", "strong1", "struct" Struct,
            "super", "supply0", "supply1", "sync_accept_on", "sync_reject_on", "table", "tagged",
            "task", "this", "throughout", "time", "timeprecision", "timeunit", "tran", "tranif0",
            "tranif1", "tri", "tri0", "tri1", "triand", "trior", "trireg", "type", "typedef" Typedef,
            "union", "unique" Unique, "unique0", "unsigned" Unsigned, "until", "until_with",
            "untyped", "use", "uwire", "var", "vectored", "virtual", "void", "wait", "wait_order",
            "wand", "weak", "weak0", "weak1", "while", "wildcard", "wire" Wire, "with", "within",
            "wor", "xnor", "xor",
        }
    };
}

macro_rules! texts {
    ($($text:literal $($key:ident)?,)*) => { [$($text),*] };
}

macro_rules! key {
    () => { None };
    ($key:ident) => { Some(Key::$key) };
}

macro_rules! keys {
    ($($text:literal $($key:ident)?,)*) => { [$(key!($($key)?)),*] };
}

macro_rules! written {
    ($of:expr; $($text:literal $($key:ident)?,)*) => {
        match $of { $($(Key::$key => $text,)?)* }
    };
}

static KEYWORDS: [&str; 248] = keywords!(texts);

static KEYS: [Option<Key>; 248] = keywords!(keys);

/// The keywords of Verilog and SystemVerilog, in the order of their bytes.
#[tactic(auto, unfolding(crate::specs::Keyword::keywords))]
pub fn system_verilog_keywords() -> &'static [&'static str]
    ensures words { map (λ t. t.now) result.now ≡ keywords }
    ensures count { length result.now ≡ 248 }
{
    &KEYWORDS
}

/// For each of the keywords, in the same order, its key, where the grammar uses it.
#[tactic(auto, unfolding(crate::specs::Keyword::keywords, crate::specs::Tokens::reserved_keys, crate::specs::Tokens::key_text))]
pub fn system_verilog_keys() -> &'static [Option<Key>]
    ensures keys { result.now ≡ map (key_written reserved_keys) keywords }
    ensures count { length result.now ≡ 248 }
{
    &KEYS
}

/// Whether the identifier is reserved in Verilog or SystemVerilog, upper and lower case apart.
///
/// The list is that of the crate xlsynth-vast; the standard's own is in IEEE Std 1800-2017, Annex B. It takes no memory.
pub fn is_system_verilog_keyword(identifier: &str) -> bool
    ensures { result ≡ is_keyword identifier.now }
{
    system_verilog_keywords().binary_search(&identifier).is_ok()
}

impl Key {
    /// How it is written.
    #[tactic(auto, unfolding(crate::specs::Tokens::key_text))]
    pub fn as_str(&self) -> &'static str
        ensures { result.now ≡ key_text self.now }
    {
        keywords!(written, self)
    }
}
