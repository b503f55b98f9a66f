ghost use Rattle.pv_fields.specs.Reading.{ReadsBack};
ghost use Rattle.pv_account.specs.Profile.{IsProfile, profile_bytes};

/// A law: no spelling of an account is a prefix of another's, so bytes begin with at most one account.
pub fn no_account_begins_another()
    ensures { ReadsBack IsProfile profile_bytes }
{}
