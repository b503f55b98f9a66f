ghost use Rattle.std.specs.Prelude.{◌≡◌, ◌<◌, ◌≤◌, length, not, position, IsTrue, ◌↔◌};
ghost use Rattle.std.specs.Char.{is_ascii_digit};
ghost use Rattle.std.specs.Str.Parse.{AllDigits, digits_value};
ghost use Rattle.pv_page.specs.Names.{first_not_digit};

/// The index of the first byte that is no digit.
pub(crate) fn first_not_digit(text: &[u8]) -> Option<usize>
    ensures { result ≡ first_not_digit text.now }
{
    text.iter().position(|byte| !byte.is_ascii_digit())
}

/// Whether each byte is a digit.
#[tactic(auto, using(crate::proofs::Decimals::digits_from_none, crate::proofs::Decimals::none_from_digits))]
pub(crate) fn are_digits(text: &[u8]) -> bool
    ensures { IsTrue result ↔ AllDigits 10 text.now }
{
    first_not_digit(text).is_none()
}

/// The number that one to nineteen digits write.
#[tactic(auto, using(crate::proofs::Decimals::ascii))]
pub(crate) fn number_of(digits: &[u8]) -> u64
    requires { (0 < length digits.now) × (length digits.now ≤ 19) × AllDigits 10 digits.now }
    ensures { result ≡ digits_value 10 digits.now }
{
    std::str::from_utf8(digits).unwrap().parse().unwrap()
}
