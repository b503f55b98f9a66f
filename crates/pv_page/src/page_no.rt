ghost use Rattle.std.specs.Prelude.{◌≡◌, ℕ, ◌≤◌, ◌↔◌, IsTrue, IsSome, IfSome, IfOk, Ok, decimal};
ghost use Rattle.pv_fields.specs.Refusals.{first_of};
ghost use Rattle.pv_page.specs.Names.{IsPage, covers, Covers, page_errors, page_of_digits};

use crate::digits::{first_not_digit, number_of};
use crate::page_error::PageError;
use itoa::Buffer;
use std::marker::Model;

/// How many digits a page number has at most.
pub const PAGE_DIGITS: usize = 9;

/// The greatest page number: nine nines.
pub const LAST_PAGE: u32 = 999_999_999;

/// The number of a page, 0 to 999,999,999.
#[derive(Clone, Copy, Debug, PartialEq, Eq, PartialOrd, Ord, Hash)]
pub struct PageNo {
    number: u32,
}

impl Model for PageNo {
    ghost Value = { ℕ };

    ghost view = { λ page. page.number };

    ghost invariant = { λ page. IsPage page.number };

    ghost inverse = { λ number. record { number = number } };
}

impl PageNo {
    /// The page of a number. `None` exactly when the number is above [`LAST_PAGE`].
    pub fn of_number(number: u32) -> Option<PageNo>
        ensures found { IsSome result ↔ IsPage number }
        ensures value { IfSome result (λ page. page ≡ number) }
    {
        if number <= LAST_PAGE {
            Some(PageNo { number })
        } else {
            None
        }
    }

    /// The page's number.
    pub fn number(&self) -> u32
        ensures value { result ≡ self.now }
        ensures within { IsPage self.now }
    {
        self.number
    }

    /// The page that the digits write in decimal.
    ///
    /// The error is the first that applies: no digit, more than nine bytes, a byte that is no digit (the
    /// first such byte is named), or a zero before other digits.
    #[tactic(auto, using(crate::proofs::Decimals::pages))]
    pub fn of_digits(digits: &[u8]) -> Result<PageNo, PageError>
        ensures reads { result ≡ page_of_digits digits.now }

        // What is read is a page, and the digits are its decimal text. Each such text is read.
        ensures ok { IfOk result (λ page. IsPage page × (digits.now ≡ decimal page)) }
        ensures only { (page : ℕ) → IsPage page → digits.now ≡ decimal page → result ≡ Ok page }
    {
        match first_error(digits) {
            Some(error) => Err(error),
            None => {
                let number = number_of(digits) as u32;
                Ok(PageNo { number })
            }
        }
    }

    /// Whether the decimal digits of `root` are a prefix of those of this page. So a page begins with
    /// itself, and page 0 begins no other.
    pub fn begins(&self, root: PageNo) -> bool
        ensures exact { IsTrue result ↔ Covers root self.now }
        ensures value { result ≡ covers root self.now }
    {
        let mut page = Buffer::new();
        let mut prefix = Buffer::new();
        let digits = page.format(self.number).as_bytes();
        digits.starts_with(prefix.format(root.number).as_bytes())
    }
}

/// The first reason why the text is no page's digits.
fn first_error(text: &[u8]) -> Option<PageError>
    ensures { result ≡ first_of (page_errors text.now) }
{
    if text.is_empty() {
        return Some(PageError::Empty);
    }
    if text.len() > PAGE_DIGITS {
        return Some(PageError::TooLong);
    }
    if let Some(at) = first_not_digit(text) {
        return Some(PageError::NotDigit { at });
    }
    if text.len() > 1 && text[0] == b'0' {
        return Some(PageError::LeadingZero);
    }
    None
}
