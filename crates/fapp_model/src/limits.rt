/// The greatest number that an instance's text may have: a frequency in its unit, a path's number,
/// a distance.
pub const MAX_NUMBER: u32 = 1_000_000_000;

/// The most bytes of a text that a call reads.
pub const MAX_TEXT: usize = 1_073_741_824;

/// The most paths of an instance.
pub const MAX_PATHS: usize = 8_192;

/// The most domain records of a text, repeated ones counted.
pub const MAX_DOMAIN_RECORDS: usize = 1_048_576;

/// The most constraint records of an instance.
pub const MAX_RECORDS: usize = 2_097_152;

/// The most distinct frequencies of a domain.
pub const MAX_DOMAIN_FREQUENCIES: usize = 32_768;

/// The most choices of all paths together.
pub const MAX_CHOICES: usize = 4_194_304;

/// The most paths that a job's prefix names.
pub const MAX_DEPTH: usize = 64;

/// One more than the most violations that a tag can name at one level.
pub const V_SPAN: u32 = 1 << 26;

/// One more than the greatest sum of violations that a tag can name.
pub const S_SPAN: u32 = 1 << 26;

/// The most choices of a path.
pub const MAX_PATH_CHOICES: u32 = 65_536;

/// The most workers that search or judge side by side.
pub const MAX_WORKERS: u32 = 32;

/// The most ticks of a job.
pub const MAX_FUEL: u32 = 1_000_000;

/// The most prefixes that a search is split into.
pub const MAX_SPLIT: u32 = 4096;

/// The most rows of the pool of nogoods.
pub const MAX_POOL: u32 = 65_536;

/// The most paths of a made network.
pub const MAX_MADE_PATHS: u32 = 2000;
