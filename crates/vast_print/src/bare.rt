//! Texts that stand bare before the apostrophe of a cast.

ghost use Rattle.std.specs.Prelude.{◌≡◌};
ghost use Rattle.std.specs.Char.{is_ascii_digit};
ghost use Rattle.std.specs.List.{list_all};
ghost use Rattle.vast_literal.specs.Literal.{is_decimal};
ghost use Rattle.vast_print.specs.Bare;

/// Whether a text is a number or a word, so that a cast by it needs no parentheses.
#[tactic(auto, unfolding(crate::specs::Bare::is_bare))]
pub(crate) fn is_bare(text: &str) -> bool
    ensures { result ≡ Bare.is_bare text.now }
{
    is_number(text.as_bytes()) || is_word(text.as_bytes())
}

#[tactic(auto, unfolding(vast_literal::specs::Literal::is_decimal))]
fn is_number(bytes: &[u8]) -> bool
    ensures { result ≡ is_decimal bytes.now }
{
    all_digits(bytes) && !bytes.is_empty()
}

fn all_digits(bytes: &[u8]) -> bool
    ensures { result ≡ list_all is_ascii_digit bytes.now }
{
    bytes.iter().all(|byte| byte.is_ascii_digit())
}

fn is_word(bytes: &[u8]) -> bool
    ensures { result ≡ Bare.is_word bytes.now }
{
    match bytes.split_first() {
        Some((first, rest)) => begins_word(*first) && all_continue(rest),
        None => false,
    }
}

fn begins_word(byte: u8) -> bool
    ensures { result ≡ Bare.begins_word byte }
{
    byte.is_ascii_alphabetic() || byte == b'_'
}

fn all_continue(bytes: &[u8]) -> bool
    ensures { result ≡ list_all Bare.continues_word bytes.now }
{
    bytes.iter().all(|byte| continues_word(*byte))
}

fn continues_word(byte: u8) -> bool
    ensures { result ≡ Bare.continues_word byte }
{
    byte.is_ascii_alphanumeric() || byte == b'_' || byte == b'$'
}
