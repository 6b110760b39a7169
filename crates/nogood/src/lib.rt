//! Lists of literals: conflicts that a search learned, the choices that it stands at, and the rows
//! in which conflicts are shared.
#![tactic(auto)]

mod laws;
mod nogood;
mod partial;
mod row;

pub use laws::{joins_are_both, literals_stay};
pub use nogood::Nogood;
pub use partial::Partial;
pub use row::{Published, Row};

#[cfg(test)]
mod tests {
    use super::*;
    use fapp_model::{Literal, Triple, tag_of};
    use std::test::Fail;

    const LEFT: [Literal; 2] = [
        Literal { path: 1, choice: 3 },
        Literal { path: 4, choice: 0 },
    ];

    const RIGHT: [Literal; 2] = [
        Literal { path: 2, choice: 5 },
        Literal { path: 4, choice: 0 },
    ];

    #[test]
    fn joins_and_leaves_out(rt: HostRuntime) -> Result<(), Fail> {
        let left = Nogood::new(rt.alloc(), &LEFT)?;
        let right = Nogood::new(rt.alloc(), &RIGHT)?;
        let joined = left.join(rt.alloc(), &right)?;
        assert_eq!(rt; joined.lits(), [LEFT[0], RIGHT[0], LEFT[1]].as_slice());
        assert!(rt; joined.contains(RIGHT[0]));
        assert!(rt; !left.contains(RIGHT[0]));
        let rest = joined.without(rt.alloc(), 2)?;
        assert_eq!(rt; rest.lits(), LEFT.as_slice());
        Ok(())
    }

    #[test]
    fn is_within_what_is_set(rt: HostRuntime) -> Result<(), Fail> {
        let nogood = Nogood::new(rt.alloc(), &LEFT)?;
        let mut part = Partial::new(rt.alloc(), 5)?;
        part.set(1, 3);
        assert!(rt; !nogood.is_within(&part));
        part.set(4, 0);
        assert!(rt; nogood.is_within(&part));
        assert_eq!(rt; part.get(4), Some(0));
        assert_eq!(rt; part.get(5), None);
        part.clear(4);
        assert_eq!(rt; part.get(4), None);
        Ok(())
    }

    #[test]
    fn row_gives_the_literals_that_count(rt: HostRuntime) {
        let mut lits = [Literal { path: 0, choice: 0 }; 8];
        lits[0] = LEFT[0];
        let tag = tag_of(Triple { k: 1, v: 0, s: 0 });
        let row = Row { tag, len: 1, lits };
        assert_eq!(rt; row.literals(), [LEFT[0]].as_slice());
    }
}
