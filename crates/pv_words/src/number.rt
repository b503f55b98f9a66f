ghost use Rattle.std.specs.Prelude.{◌≡◌, ℕ, Some, IfSome};
ghost use Rattle.pv_words.specs.Numbers.{IsNumber, IsBelow};

use crate::parts::Reader;
use itoa::Buffer;

/// The part that is a number below 2 to the 64th.
#[derive(Clone, Copy, Debug)]
pub struct Number;

impl<'a> Reader<'a> for Number {
    type Value = u64;

    ghost Writes = { λ _. IsNumber };

    fn read(&self, text: &'a [u8]) -> Option<u64> {
        number_of(text)
    }
}

/// The part that is a number below this end, as that of a centre or a port.
#[derive(Clone, Copy, Debug)]
pub struct Below(pub u8);

impl<'a> Reader<'a> for Below {
    type Value = u8;

    ghost Writes = { λ end. IsBelow end.0 };

    fn read(&self, text: &'a [u8]) -> Option<u8> {
        let end = self.0;
        let number = number_of(text)?;
        if number < end as u64 {
            Some(number as u8)
        } else {
            None
        }
    }
}

/// The number that a text writes in decimal, without a sign or a leading zero. `None` exactly when it writes none
/// below 2 to the 64th.
#[tactic(auto, using(crate::proofs::Digits::one_digit))]
pub fn number_of(text: &[u8]) -> Option<u64>
    ensures found { IfSome result (λ number. IsNumber number text.now) }
    ensures only { (number : ℕ) → IsNumber number text.now → result ≡ Some number }
{
    // Most numbers of a line are those of a centre or a port.
    if text.len() == 1 && text[0].is_ascii_digit() {
        return Some((text[0] - b'0') as u64);
    }
    parsed_number(text)
}

/// Reads a number by the standard parser, and refuses a text that the number is not written as.
fn parsed_number(text: &[u8]) -> Option<u64>
    ensures found { IfSome result (λ number. IsNumber number text.now) }
    ensures only { (number : ℕ) → IsNumber number text.now → result ≡ Some number }
{
    let Ok(digits) = std::str::from_utf8(text) else {
        return None;
    };
    let Ok(number) = digits.parse() else {
        return None;
    };
    if Buffer::new().format(number).as_bytes() == text {
        Some(number)
    } else {
        None
    }
}
