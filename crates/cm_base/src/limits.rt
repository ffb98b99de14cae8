// The numbers that bound ids and capabilities, for the code; contracts cite those of the definitions.

/// -1 as a number of 32 bits: no id is it, and as an argument it leaves an id as it is (setresuid(2)).
pub const MINUS_ONE: u32 = u32::MAX;

/// How many capabilities there are: 0 to 40 (capabilities(7), "Capabilities list").
pub const CAP_COUNT: u8 = 41;

/// The bits of the set of all capabilities.
pub const ALL_CAPS: u64 = 0x1ff_ffff_ffff;
