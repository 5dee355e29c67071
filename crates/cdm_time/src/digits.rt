//! Numbers in texts, and digits of numbers.
ghost use Rattle.std.specs.Prelude.{◌≡◌, ◌≤◌, ◌<◌, ◌^◌, IfSome, length, Some, None, if◌then◌else◌};
ghost use Rattle.cdm_time.specs.Digits.{are_digits, number_in, two_digits};

/// The number that a text of at most four bytes spells, with leading zeros or without, or `None`
/// where a byte is no digit. A text without bytes spells 0.
#[tactic(auto, unfolding(crate::specs::Digits::are_digits, crate::specs::Digits::number_in))]
pub fn number_of(text: &[u8]) -> Option<u16>
    requires { length text.now ≤ 4 }
    ensures value { result ≡ (if are_digits text.now then Some (number_in text.now) else None) }
    ensures bound { IfSome result (λ n. n < 10 ^ length text.now) }
{
    let mut number: u16 = 0;
    for byte in text {
        if !byte.is_ascii_digit() {
            return None;
        }
        number = 10 * number + u16::from(*byte - b'0');
    }
    Some(number)
}

/// A number below 100 in two digits.
pub(crate) fn digit_pair(number: u16) -> [u8; 2]
    requires { number < 100 }
    ensures { result ≡ two_digits number }
{
    [b'0' + (number / 10) as u8, b'0' + (number % 10) as u8]
}
