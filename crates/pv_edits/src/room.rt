/// The account of the operator, who may edit every page. It is there from the first.
pub const OPERATOR: u64 = 0;

/// How many accounts there can be, with the operator.
pub const MAX_ACCOUNTS: u32 = 1_000;

/// How many roots can be leased.
pub const MAX_LEASES: u32 = 1_000;
