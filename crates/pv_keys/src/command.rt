use pv_page::PageNo;

/// The number that ends a call if it is keyed as a page: `*90#`. The page can be reached by routes alone.
pub const END_PAGE: u32 = 90;

/// The number that shows a caller's letters if it is keyed as a page: `*930#`. The page can be reached by routes
/// alone.
pub const MAIL_PAGE: u32 = 930;

/// What a caller's keys ask for.
#[derive(Clone, Copy, Debug, PartialEq, Eq)]
pub enum Command {
    /// `0` to `9`: the page to which the frame's route of that digit leads.
    Route(u8),
    /// `#`: the next frame of the page.
    Next,
    /// `*`, a page number and `#`: that page.
    Go(PageNo),
    /// `*#`: the frame before.
    Back,
    /// `*00`: the same frame again, as it was shown.
    Repeat,
    /// `*09`: the same frame as it is now.
    Fresh,
    /// `*930#`: the letters that wait.
    Mail,
    /// `*90#`: the end of the call.
    End,
    /// `**`, also after `*` and a number: the keys before it are taken back.
    Cancel,
    /// Keys that are no command.
    Slip,
}
