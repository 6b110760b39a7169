ghost use Rattle.std.specs.Prelude.{ℕ};
ghost use Rattle.fapp_model.specs.declared.instance.Instance.{Instance};
ghost use Rattle.nogood_pool.specs.Pool.{IsPool, Words};
ghost use Rattle.nogood_pool.specs.Ends.{RowsAreImplied, RowsStay};

/// Between any two steps, of however many seats in whatever order, each row that has a tag, was
/// published or was seen holds a content that is implied.
pub fn rows_are_implied()
    ensures { (rows : ℕ) (instance : Instance) (s : Words) → IsPool rows instance s →
        RowsAreImplied rows instance s }
{}

/// No step stores to a row that was published or seen: the row that a seat writes is none of these.
pub fn rows_stay()
    ensures { (rows : ℕ) (instance : Instance) (s : Words) → IsPool rows instance s → RowsStay s }
{}
