//! Literals and strings that are long for a line of a list, and the tokens that the grammar knows by name.

use std::test::Fail;
use vast_literal::{Key, Literal, LiteralFormat, Sign, quoted_text};

#[test]
fn the_widest_literal_has_all_its_digits(rt: HostRuntime) -> Result<(), Fail> {
    let literal = Literal::parse(rt.alloc(), "bits[1048576]:1")?;
    let text = literal.format(rt.alloc(), LiteralFormat::Hex)?;
    assert!(rt; text.as_str().ends_with("_0001"));
    assert_eq!(rt; text.len(), 327_688);
    Ok(())
}

#[test]
fn all_ascii_characters_are_written_in_a_string(rt: HostRuntime) -> Result<(), Fail> {
    let mut ascii = String::new(rt.alloc());
    for code in 0..128u8 {
        ascii.push(code as char)?;
    }
    let escaped = quoted_text(rt.alloc(), ascii.as_str())?;
    assert_eq!(rt; escaped.len(), 225);
    Ok(())
}

#[test]
fn a_sign_and_a_keyword_are_written_as_in_the_standard(rt: HostRuntime) -> Result<(), Fail> {
    assert_eq!(rt; Sign::ShiftRightSigned.as_str(), ">>>");
    assert_eq!(rt; Sign::ShiftRightSigned.level(), 8);
    assert!(rt; Sign::Minus.is_unary() && !Sign::Plus.is_unary());
    assert_eq!(rt; Key::AlwaysFF.as_str(), "always_ff");
    assert!(rt; Key::Signed.is_cast_word() && !Key::Wire.is_cast_word());
    Ok(())
}
