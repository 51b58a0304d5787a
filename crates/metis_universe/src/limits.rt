//! How large a universe may be.

/// The most states of one type.
pub const MOST_STATES: u64 = 64;

/// The most providers that the states of one type demand, of all ports together.
pub const MOST_REQUIRED: u64 = 128;

/// The most pairs of all types.
pub const MOST_PAIRS: u64 = 2000;

/// The most distinct ports.
pub const MOST_PORTS: u64 = 4000;

/// The most providers that one entry may ask for.
pub const MOST_DEMANDED: u64 = 16;

/// The most bytes of a name.
pub const LONGEST_NAME: usize = 64;
