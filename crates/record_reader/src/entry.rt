use fapp_model::MAX_LEVELS;

/// `DM domain frequency`: the frequency is in the domain.
#[derive(Clone, Copy, Debug)]
pub struct DomainEntry {
    pub domain: u32,
    pub frequency: u32,
}

/// `TR number domain pol`: the next path. Its polarization is -1, 1 or, where it is free, 0.
#[derive(Clone, Copy, Debug)]
pub struct PathEntry {
    pub line: u32,
    pub number: u32,
    pub domain: u32,
    pub pol: i8,
}

/// What a constraint says of its two paths.
#[derive(Clone, Copy, Debug)]
pub enum Demand {
    /// `F E n` or `F I n`: the distance of the frequencies is `n`, or is not `n`.
    Freq { equal: bool, n: u32 },
    /// `P E x` or `P I x`: the polarizations are equal, or are not.
    Pol { equal: bool },
    /// The least distance of each level at equal polarizations, and 0 where there is no level.
    Same { dist: [u32; MAX_LEVELS as usize] },
    /// The least distance of each level at different polarizations, and 0 where there is no level.
    Other { dist: [u32; MAX_LEVELS as usize] },
}

/// `CI first second` and a rule of the first two kinds, or `CE first second` or `CD first second`
/// and a distance for each level. `first` and `second` are numbers of paths.
#[derive(Clone, Copy, Debug)]
pub struct ConstraintEntry {
    pub line: u32,
    pub first: u32,
    pub second: u32,
    pub rule: Demand,
}

/// What a line links: a path to its domain, or two paths to each other.
#[derive(Clone, Copy, Debug)]
pub enum Pending {
    Path(PathEntry),
    Constraint(ConstraintEntry),
}

/// What a line says.
#[derive(Clone, Copy, Debug)]
pub enum Entry {
    Domain(DomainEntry),
    Pending(Pending),
}

/// What the first field of a line names.
#[derive(Clone, Copy, Debug)]
pub enum Kind {
    Domain,
    Path,
    Imperative,
    Same,
    Other,
}
