use super::tables::{is_literal, read};
use arc_levels::{ArcTable, Rule};
use fapp_model::{Literal, Triple, triple_of};
use fapp_tables::Tables;
use std::test::Fail;
use worked_networks::{ALIKE, CHAIN, FALLING, FREE, TIED, TORN};

// Texts; at how many levels some path has no choice in the arcs; the choices that are outside some
// level's arcs, with the number of these levels before the path and the choice; and choices within
// all arcs.
const ARCS: [(&str, u32, &[(u32, u16, u16)], &[(u16, u16)]); 6] = [
    (TIED, 11, &[(12, 1, 0), (11, 0, 0), (11, 1, 1)], &[]),
    (
        TORN,
        12,
        &[(12, 0, 0), (12, 0, 1), (12, 1, 0), (12, 1, 1)],
        &[],
    ),
    (CHAIN, 0, &[(12, 1, 0)], &[(0, 0), (1, 1)]),
    (FALLING, 5, &[(10, 1, 0), (5, 0, 0), (5, 1, 1)], &[]),
    (FREE, 0, &[(11, 1, 1)], &[(0, 0), (1, 0)]),
    (ALIKE, 0, &[], &[(0, 0), (1, 1), (2, 0)]),
];

fn plain(k: u32) -> Triple {
    Triple { k, v: 0, s: 0 }
}

#[test]
fn choices_outside_the_arcs_have_lines(rt: HostRuntime) -> Result<(), Fail> {
    for (text, root, removed, kept) in ARCS.iter() {
        assert!(rt; text.len() < 1000);
        let instance = read(rt.alloc(), text)?;
        let tables = Tables::new(rt.alloc(), &instance)?;
        let arcs = ArcTable::build(rt.alloc(), &tables)?;
        assert_eq!(rt; triple_of(arcs.root_tag()), plain(*root), "at {text}");
        assert_eq!(rt; arcs.lines().len(), removed.len(), "at {text}");
        for line in arcs.lines() {
            assert_eq!(rt; line.lits.len(), 1, "at {text}");
            let Literal { path, choice } = line.lits.as_slice()[0];
            let k = triple_of(line.tag).k;
            assert!(rt; removed.contains(&(k, path, choice)), "at {text}");
            assert_eq!(rt; triple_of(line.tag), plain(k), "at {text}");
            assert!(rt; matches!(&line.rule, Rule::Count { cites } if cites.is_empty()));
        }
        for (k, path, choice) in removed.iter() {
            assert!(rt; is_literal(&instance, *path, *choice));
            assert_eq!(rt;
                triple_of(arcs.tag_at(*path, *choice)),
                plain(*k),
                "at {text}"
            );
        }
        for (path, choice) in kept.iter() {
            assert!(rt; is_literal(&instance, *path, *choice));
            assert_eq!(rt;
                triple_of(arcs.tag_at(*path, *choice)),
                plain(0),
                "at {text}"
            );
        }
    }
    Ok(())
}
