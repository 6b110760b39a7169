//! Texts of small networks whose least plans are known. Tests alone use them.

/// A path of one choice and one of three, 20 apart at every level.
pub const PLAIN: &str =
    "DM 1 10\nDM 2 10\nDM 2 20\nDM 2 30\nTR 1 1 1\nTR 2 2 1\nCE 1 2 20 20 20 20 20 20 20 20 20 20 20\n";

/// Two paths whose frequencies lie 10 apart.
pub const CHAIN: &str = "DM 1 10\nDM 2 10\nDM 2 20\nTR 1 1 1\nTR 2 2 1\nCI 1 2 F E 10\n";

/// Two paths whose frequencies must lie 10 apart and must not.
pub const TORN: &str = "DM 1 10\nDM 1 20\nTR 1 1 1\nTR 2 1 1\nCI 1 2 F E 10\nCI 1 2 F I 10\n";

/// Two paths whose distances fall with the level.
pub const FALLING: &str =
    "DM 1 10\nDM 2 10\nDM 2 20\nTR 1 1 1\nTR 2 2 1\nCE 1 2 20 18 16 14 12 10 8 6 4 2 0\n";

/// Three paths of two choices that should lie 10 apart at every level.
pub const ALIKE: &str =
    "DM 1 10\nDM 1 20\nTR 1 1 1\nTR 2 1 1\nTR 3 1 1\nCE 1 2 10 10 10 10 10 10 10 10 10 10 10\nCE 1 3 10 10 10 10 10 10 10 10 10 10 10\nCE 2 3 10 10 10 10 10 10 10 10 10 10 10\n";

/// A path whose polarization is free.
pub const FREE: &str =
    "DM 1 10\nTR 1 1 1\nTR 2 1 0\nCE 1 2 50 50 50 50 50 50 50 50 50 50 50\nCD 1 2 0 0 0 0 0 0 0 0 0 0 0\n";

/// A path whose polarization is free, and must be that of the other.
pub const TIED: &str =
    "DM 1 10\nTR 1 1 1\nTR 2 1 0\nCE 1 2 50 50 50 50 50 50 50 50 50 50 50\nCD 1 2 0 0 0 0 0 0 0 0 0 0 0\nCI 1 2 P E 0\n";

/// Four paths with records of every kind.
pub const SMALL: &str =
    "DM 1 1000\nDM 1 1040\nDM 2 1100\nDM 2 1140\nDM 2 1180\nDM 3 1000\nDM 3 1040\nDM 3 1080\nTR 1 1 1\nTR 2 2 1\nTR 3 3 1\nTR 4 2 0\nCI 1 2 F E 100\nCI 3 4 F E 100\nCI 1 3 F I 0\nCE 1 3 100 95 90 85 80 75 70 65 60 55 50\nCD 1 3 60 56 52 48 44 40 36 32 28 24 20\nCE 2 4 100 95 90 85 80 75 70 65 60 55 50\nCD 2 4 60 56 52 48 44 40 36 32 28 24 20\n";
