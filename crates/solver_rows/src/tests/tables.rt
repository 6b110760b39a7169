ghost use Rattle.std.specs.Prelude.{◌≤◌, length, IfOk, IsTrue};
ghost use Rattle.fapp_model.specs.Instances.{IsInstance};
ghost use Rattle.fapp_model.specs.search.Partials.{IsLiteral, literal};

use fapp_model::{Instance, choice_count};
use fapp_tables::Tables;
use record_reader::read_instance;
use std::alloc::Global;
use std::test::Fail;
use worked_networks::SMALL;

// Records of one pair, some of which name the second path first.
const TURNED: &str =
    "DM 1 10\nDM 1 30\nTR 1 1 1\nTR 2 1 1\nTR 3 1 1\nCI 1 3 F I 0\nCE 2 1 25 25 15 15 5 5 5 5 5 5 5\nCI 2 1 F I 0\nCE 1 2 30 20 10 0 0 0 0 0 0 0 0\n";

// Texts, and the work orders of their instances.
const ORDERS: [(&str, &[u16]); 5] = [
    ("", &[]),
    ("DM 1 10\nTR 1 1 1\nTR 2 1 1\n", &[0, 1]),
    (
        "DM 1 10\nTR 1 1 1\nTR 2 1 1\nTR 3 1 1\nCI 3 2 F E 0\n",
        &[1, 2, 0],
    ),
    (SMALL, &[0, 2, 1, 3]),
    (TURNED, &[0, 1, 2]),
];

pub fn read(alloc: Global, text: &str) -> Result<Instance, Fail>
    requires { length text.now ≤ 1000 }
    ensures { IfOk result IsInstance }
{
    match read_instance(alloc, text.as_bytes()) {
        Ok(instance) => Ok(instance),
        Err(_) => Err("unread".into()),
    }
}

pub fn is_literal(instance: &Instance, path: u16, choice: u16) -> bool
    requires { IsInstance instance.now }
    ensures { IsTrue result → IsLiteral instance.now (literal path choice) }
{
    match instance.paths.as_slice().get(path as usize) {
        Some(chosen) => u32::from(choice) < choice_count(chosen),
        None => false,
    }
}

#[test]
fn paths_stand_in_work_order(rt: HostRuntime) -> Result<(), Fail> {
    for (text, order) in ORDERS.iter() {
        assert!(rt; text.len() < 1000);
        let instance = read(rt.alloc(), text)?;
        let tables = Tables::new(rt.alloc(), &instance)?;
        assert_eq!(rt; tables.order(), *order, "at {text}");
    }
    Ok(())
}

#[test]
fn records_are_found_from_both_paths(rt: HostRuntime) -> Result<(), Fail> {
    assert!(rt; TURNED.len() < 1000);
    let instance = read(rt.alloc(), TURNED)?;
    assert_eq!(rt; instance.paths.len(), 3);
    let tables = Tables::new(rt.alloc(), &instance)?;
    assert_eq!(rt; tables.neighbours(0), [1, 2].as_slice());
    assert_eq!(rt; tables.neighbours(1), [0].as_slice());
    assert_eq!(rt; tables.records_between(0, 1), [1, 2, 3].as_slice());
    assert_eq!(rt; tables.records_between(1, 0), [1, 2, 3].as_slice());
    assert_eq!(rt; tables.records_between(2, 0), [0].as_slice());
    assert_eq!(rt; tables.records_between(1, 2), [].as_slice());
    assert_eq!(rt; tables.records_between(1, 1), [].as_slice());
    Ok(())
}

#[test]
fn records_between_choices_are_weighed(rt: HostRuntime) -> Result<(), Fail> {
    assert!(rt; TURNED.len() < 1000);
    let instance = read(rt.alloc(), TURNED)?;
    assert!(rt; is_literal(&instance, 0, 0) && is_literal(&instance, 1, 1));
    let tables = Tables::new(rt.alloc(), &instance)?;
    // The frequencies are 20 apart: below 25, 25 and below 30, 20.
    for (level, hard, weight) in [
        (0, true, 0),
        (1, true, 2 << 26),
        (2, false, (1 << 26) + 2),
        (3, false, 3),
        (11, false, 3),
    ] {
        assert_eq!(rt; tables.hard_bad(level, 0, 0, 1, 1), hard, "at {level}");
        assert_eq!(rt; tables.hard_bad(level, 1, 1, 0, 0), hard, "at {level}");
        if level > 0 {
            assert_eq!(rt; tables.weight(level, 1, 1, 0, 0), weight, "at {level}");
        }
    }
    Ok(())
}
