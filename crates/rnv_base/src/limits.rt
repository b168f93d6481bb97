/// The most bytes of the store's file: 256 MiB.
pub const STORE_BYTES: u64 = 268_435_456;

/// The most files of one base.
pub const BASE_FILES: usize = 20_000;

/// The most bytes of one base's files together: 64 MiB.
pub const BASE_BYTES: u64 = 67_108_864;

/// The most bytes of the settings, or of one release document: 64 MiB.
pub const DOCUMENT_BYTES: u64 = 67_108_864;

/// The most rules of a resolved configuration.
pub const MOST_RULES: usize = 1_000;

/// The most dependencies found in one repository.
pub const MOST_DEPENDENCIES: usize = 20_000;

/// The most releases of one document.
pub const MOST_RELEASES: usize = 50_000;

/// The most branches that the rules want.
pub const MOST_ITEMS: usize = 5_000;
