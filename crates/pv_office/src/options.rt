ghost use Rattle.std.specs.Prelude.{◌≡◌, ◌↔◌, List, ℕ, [], ◌∷◌, map, string_bytes, IfSome, IsNone};
ghost use Rattle.pv_office.specs.Options.{AskForStatement, AskNoStatement, AreOptions};

use crate::month::month_of;
use pv_page::AccountNo;

/// What the words of `statement` ask for.
#[derive(Clone, Copy, Debug)]
pub struct StatementOptions<'a> {
    /// The folder of the Update Centre's disk.
    pub folder: &'a str,
    /// Whose statement.
    pub account: AccountNo,
    /// The year of its month, 1970 to 2099.
    pub year: u16,
    /// The month, 1 to 12.
    pub month: u8,
}

/// What the words ask for, if they are `statement`, a folder, an account in ten digits and a month as `YYYY-MM`. `None`
/// exactly when they are not.
pub fn statement_options(words: &[String]) -> Option<StatementOptions<'_>>
    ensures found { IfSome result (λ options. AskForStatement (map string_bytes words.now)
        options.folder.now options.account options.year options.month) }
    ensures only { (folder : List ℕ) (account year month : ℕ)
        → AskForStatement (map string_bytes words.now) folder account year month
        → IfSome result (λ options. AreOptions options.folder.now options.account options.year options.month
        folder account year month) }
    ensures none { IsNone result ↔ AskNoStatement (map string_bytes words.now) }
{
    match words {
        [command, folder, account, month] => options_of(command, folder, account, month),
        _ => None,
    }
}

/// What these four words ask for.
fn options_of<'a>(
    command: &str,
    folder: &'a str,
    account: &str,
    month: &str,
) -> Option<StatementOptions<'a>>
    ensures found { IfSome result (λ options.
        AskForStatement (command.now ∷ folder.entry.now ∷ account.now ∷ month.now ∷ [])
        options.folder.now options.account options.year options.month) }
    ensures only { (of_folder : List ℕ) (of_account of_year of_month : ℕ)
        → AskForStatement (command.now ∷ folder.entry.now ∷ account.now ∷ month.now ∷ [])
        of_folder of_account of_year of_month
        → IfSome result (λ options. AreOptions options.folder.now options.account options.year options.month
        of_folder of_account of_year of_month) }
    ensures none { IsNone result
        ↔ AskNoStatement (command.now ∷ folder.entry.now ∷ account.now ∷ month.now ∷ []) }
{
    if command != "statement" {
        return None;
    }
    match (
        AccountNo::of_digits(account.as_bytes()),
        month_of(month.as_bytes()),
    ) {
        (Some(account), Some((year, month))) => Some(StatementOptions {
            folder,
            account,
            year,
            month,
        }),
        _ => None,
    }
}
