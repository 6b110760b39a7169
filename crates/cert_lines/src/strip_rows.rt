ghost use Rattle.std.specs.Prelude.{◌≡◌, [], ◌∷◌, IfOk};
ghost use Rattle.cert_lines.specs.declared.answer.Rule.TheVariants.{Count, Delete};

use super::*;
use fapp_model::{Items, Tag, Triple, tag_of};
use std::alloc::{AllocError, Global};
use std::test::Fail;

fn numbers(alloc: Global, cites: &[u32]) -> Result<Items<u32>, AllocError>
    ensures { IfOk result (λ items. items ≡ cites.now) }
{
    Ok(Items::from_vec(Vec::from_slice(alloc, cites)?))
}

fn count(alloc: Global, tag: Tag, cites: &[u32]) -> Result<Line, AllocError>
    ensures { IfOk result (λ line. line ≡ record { tag = tag; lits = []; rule = Count cites.now }) }
{
    Ok(Line {
        tag,
        lits: Items::new(alloc),
        rule: Rule::Count {
            cites: numbers(alloc, cites)?,
        },
    })
}

fn delete(alloc: Global, tag: Tag, cites: &[u32]) -> Result<Line, AllocError>
    ensures { IfOk result (λ line. line ≡ record {
      tag = tag;
      lits = [];
      rule = Delete cites.now;
    }) }
{
    Ok(Line {
        tag,
        lits: Items::new(alloc),
        rule: Rule::Delete {
            cites: numbers(alloc, cites)?,
        },
    })
}

/// A line is deleted, and one behind it cites another behind it.
fn short(alloc: Global, tag: Tag, least: Tag) -> Result<Vec<Line>, AllocError>
    ensures { IfOk result (λ lines. lines.items ≡ record { tag = tag; lits = []; rule = Count [] }
        ∷ record { tag = tag; lits = []; rule = Count (1 ∷ []) }
        ∷ record { tag = least; lits = []; rule = Delete (1 ∷ []) }
        ∷ record { tag = tag; lits = []; rule = Count (2 ∷ []) }
        ∷ record { tag = tag; lits = []; rule = Count (2 ∷ 4 ∷ []) } ∷ []) }
{
    let mut lines = Vec::new(alloc);
    lines.push(count(alloc, tag, &[])?)?;
    lines.push(count(alloc, tag, &[1])?)?;
    lines.push(delete(alloc, least, &[1])?)?;
    lines.push(count(alloc, tag, &[2])?)?;
    lines.push(count(alloc, tag, &[2, 4])?)?;
    Ok(lines)
}

#[test]
fn strips(rt: HostRuntime) -> Result<(), Fail> {
    let alloc = rt.alloc();
    let lines = short(alloc, tag_of(Triple { k: 12, v: 0, s: 0 }), Tag { code: 0 })?;
    let text = lines_text(alloc, &lines)?;
    assert_eq!(rt;
        text.as_slice(),
        b"C 12 0 0 0 0\nC 12 0 0 0 1 1\nD 1 1\nC 12 0 0 0 1 2\nC 12 0 0 0 2 2 4\n".as_slice()
    );
    let stripped = strip(alloc, &lines)?;
    let text = lines_text(alloc, &stripped)?;
    assert_eq!(rt;
        text.as_slice(),
        b"C 12 0 0 0 0\nC 12 0 0 0 1 1\nC 12 0 0 0 1 2\nC 12 0 0 0 2 2 3\n".as_slice()
    );
    Ok(())
}
