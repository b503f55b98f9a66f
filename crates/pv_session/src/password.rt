ghost use Rattle.std.specs.Prelude.{◌≡◌, option_copied};
ghost use Rattle.pv_session.specs.Turns.{known_caller};

use pv_account::{Account, AccountNo, PASSWORD_BYTES};

/// The account that was keyed, if the caller is shown to have one and this is its password.
pub(crate) fn known_caller(
    number: Option<AccountNo>,
    account: Option<&Account>,
    password: &[u8; PASSWORD_BYTES],
) -> Option<AccountNo>
    ensures { result ≡ known_caller number (option_copied account.entry) password.now }
{
    if account?.matches(password) {
        number
    } else {
        None
    }
}
