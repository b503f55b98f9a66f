ghost use Rattle.std.specs.Prelude.{◌≡◌, ◌<◌, ◌≤◌, ◌↔◌, IfOk};
ghost use Rattle.pv_outside.specs.declared.limits.TheConstants.{MAX_FRAMES, MAX_RECORDS};

use thiserror::Error;

/// The most frames that any node may be opened for.
pub const MAX_FRAMES: u32 = 20_000;

/// The most records that any node may be opened for.
pub const MAX_RECORDS: u32 = 50_000;

/// How large a node may grow: how many frames its page base may hold at once, 1 to 20,000, and how
/// many records its journal may have, 1 to 50,000.
#[derive(Clone, Copy, Debug, PartialEq, Eq)]
pub struct Limits {
    pub frames: u32,
    pub records: u32,
    ghost frames_in_range: { (0 < frames) × (frames ≤ MAX_FRAMES) },
    ghost records_in_range: { (0 < records) × (records ≤ MAX_RECORDS) },
}
