//! Versions of proof files.

/// The first version with steps by inclusion rules.
pub const RULE_VERSION: u64 = 2;

/// The last version that is read. All from the first one on are.
pub const LAST_VERSION: u64 = 2;
