ghost use Rattle.pv_fields.specs.Out.{Puts};
ghost use Rattle.pv_fields.specs.Reading.{GivesFound, same};
ghost use Rattle.pv_page.specs.Spelling.{page_bytes, page_at, account_bytes, account_number_at, name_bytes, name_at};

use crate::account_no::{AccountNo, LAST_ACCOUNT};
use crate::frame_name::{FIRST_LETTER, FrameName, LAST_LETTER};
use crate::page_no::{LAST_PAGE, PageNo};
use pv_fields::{In, NoRoom, NoSpelling, Out};

impl PageNo {
    /// Appends the page's number in four bytes. [`NoRoom`] if they do not fit.
    pub fn put(&self, out: &mut Out) -> Result<(), NoRoom>
        ensures { Puts result out.old out.new (page_bytes self.now) }
    {
        out.u32(self.number())
    }

    /// Takes a page's four bytes. [`NoSpelling`] if there are fewer, or the number is above
    /// [`LAST_PAGE`].
    pub fn read(bytes: &mut In) -> Result<PageNo, NoSpelling>
        ensures { GivesFound same result (page_at bytes.old) bytes.new }
    {
        let number = bytes.u32_to(LAST_PAGE)?;
        PageNo::of_number(number).ok_or(NoSpelling)
    }
}

impl AccountNo {
    /// Appends the account's number in eight bytes. [`NoRoom`] if they do not fit.
    pub fn put(&self, out: &mut Out) -> Result<(), NoRoom>
        ensures { Puts result out.old out.new (account_bytes self.now) }
    {
        out.u64(self.number())
    }

    /// Takes an account's eight bytes. [`NoSpelling`] if there are fewer, or the number is above
    /// [`LAST_ACCOUNT`].
    pub fn read(bytes: &mut In) -> Result<AccountNo, NoSpelling>
        ensures { GivesFound same result (account_number_at bytes.old) bytes.new }
    {
        let number = bytes.u64_to(LAST_ACCOUNT)?;
        AccountNo::of_number(number).ok_or(NoSpelling)
    }
}

impl FrameName {
    /// Appends the name's page and letter, five bytes. [`NoRoom`] if they do not fit.
    pub fn put(&self, out: &mut Out) -> Result<(), NoRoom>
        ensures { Puts result out.old out.new (name_bytes self.now) }
    {
        self.page.put(out)?;
        out.u8(self.letter)
    }

    /// Takes a name's five bytes. [`NoSpelling`] if there are fewer, or the page or the letter is out
    /// of its range.
    #[tactic(auto, unfolding(crate::specs::Spelling::name_at))]
    pub fn read(bytes: &mut In) -> Result<FrameName, NoSpelling>
        ensures { GivesFound same result (name_at bytes.old) bytes.new }
    {
        let page = PageNo::read(bytes)?;
        let letter = bytes.u8_within(FIRST_LETTER, LAST_LETTER)?;
        Ok(FrameName { page, letter })
    }
}
