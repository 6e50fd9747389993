//! The parts of a literal's text.

ghost use Rattle.std.specs.Prelude.{◌≡◌, ◌≤◌, IfSome, MatchOption, None, Some};
ghost use Rattle.vast_literal.specs.Literal.{typed_parts, has_minus, without_sign, marked_radix, radix_and_digits};

/// The width and the value of `bits[N]:value`, cut at the first `]:`.
pub fn split_typed(text: &str) -> Option<(&str, &str)>
    ensures { MatchOption result (typed_parts text.now ≡ None)
        (λ parts. typed_parts text.now ≡ Some (parts.0.now, parts.1.now)) }
{
    let Some(rest) = text.strip_prefix("bits[") else {
        return None
    };
    rest.split_once("]:")
}

/// Whether the number has a minus, and the number without its sign.
#[tactic(auto, unfolding(crate::specs::Literal::has_minus, crate::specs::Literal::without_sign))]
pub fn split_sign(value: &[u8]) -> (bool, &[u8])
    ensures minus { result.0 ≡ has_minus value.now }
    ensures number { result.1.now ≡ without_sign value.now }
{
    if value.is_empty() {
        return (false, value);
    }
    match value[0] {
        b'-' => (true, &value[1..]),
        b'+' => (false, &value[1..]),
        _ => (false, value),
    }
}

/// The radix that a mark stands for after a zero.
fn marked_radix(mark: u8) -> Option<u32>
    ensures radix { result ≡ marked_radix mark }
    ensures low { IfSome result (λ radix. 2 ≤ radix) }
    ensures high { IfSome result (λ radix. radix ≤ 36) }
{
    match mark {
        b'x' | b'X' => Some(16),
        b'b' | b'B' => Some(2),
        b'o' | b'O' => Some(8),
        _ => None,
    }
}

/// The radix of a number without its sign, and its digits.
#[tactic(auto, unfolding(crate::specs::Literal::radix_and_digits))]
pub fn split_radix(number: &[u8]) -> (u32, &[u8])
    ensures radix { result.0 ≡ (radix_and_digits number.now).0 }
    ensures digits { result.1.now ≡ (radix_and_digits number.now).1 }
    ensures low { 2 ≤ result.0 }
    ensures high { result.0 ≤ 36 }
{
    if number.len() < 2 || number[0] != b'0' {
        return (10, number);
    }
    match marked_radix(number[1]) {
        Some(radix) => (radix, &number[2..]),
        None => (10, number),
    }
}
