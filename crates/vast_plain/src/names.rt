//! Names that are printed, and the paths of included files.

ghost use Rattle.std.specs.Prelude.{◌≡◌};
ghost use Rattle.std.specs.List.{list_all};
ghost use Rattle.vast_literal.specs.Scan.{is_letter, is_word_byte};
ghost use Rattle.vast_literal.specs.Plain.{is_identifier, is_plain_name, is_called_name};
ghost use Rattle.vast_literal.specs.PlainFile.{is_plain_label, is_path_byte};
ghost use Rattle.vast_core.specs.Nests.{label_bytes};

use vast_core::is_system_verilog_keyword;

/// Whether the name is an identifier and no keyword.
pub(crate) fn is_plain_name(name: &str) -> bool
    ensures { result ≡ is_plain_name name.now }
{
    is_identifier(name.as_bytes()) && !is_system_verilog_keyword(name)
}

/// Whether the name may be a function's: a plain name, or `$` and an identifier.
pub(crate) fn is_called_name(name: &str) -> bool
    ensures { result ≡ is_called_name name.now }
{
    match name.as_bytes().split_first() {
        Some((first, rest)) => {
            if *first == b'$' {
                is_identifier(rest)
            } else {
                is_plain_name(name)
            }
        }
        None => false,
    }
}

/// Whether there is no label, or its name is plain.
pub(crate) fn is_plain_label(label: &Option<String>) -> bool
    ensures { result ≡ is_plain_label (label_bytes label.now) }
{
    match label {
        Some(label) => is_plain_name(label),
        None => true,
    }
}

/// Whether the path has no quote, no backslash and no line break.
pub(crate) fn is_plain_path(path: &str) -> bool
    ensures { result ≡ list_all is_path_byte path.now }
{
    path.as_bytes().iter().all(|byte| is_path_byte(*byte))
}

fn is_path_byte(byte: u8) -> bool
    ensures { result ≡ is_path_byte byte }
{
    byte != b'"' && byte != b'\\' && byte != b'\n'
}

/// Whether the bytes are a letter or `_`, and then letters, digits, `_` and `$`.
#[tactic(auto, using(crate::proofs::Lists::bytes))]
fn is_identifier(bytes: &[u8]) -> bool
    ensures { result ≡ is_identifier bytes.now }
{
    match bytes.split_first() {
        Some((first, rest)) => is_letter(*first) && are_word_bytes(rest),
        None => false,
    }
}

fn are_word_bytes(bytes: &[u8]) -> bool
    ensures { result ≡ list_all is_word_byte bytes.now }
{
    bytes.iter().all(|byte| is_word_byte(*byte))
}

fn is_letter(byte: u8) -> bool
    ensures { result ≡ is_letter byte }
{
    byte.is_ascii_alphabetic() || byte == b'_'
}

fn is_word_byte(byte: u8) -> bool
    ensures { result ≡ is_word_byte byte }
{
    is_letter(byte) || byte.is_ascii_digit() || byte == b'$'
}
