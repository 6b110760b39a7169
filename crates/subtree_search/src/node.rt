// What a node's choices came to.
ghost use Rattle.std.specs.Prelude.{◌<◌, ◌^◌};
ghost use Rattle.settle_laws.specs.Noted.{NotesBy};

use crate::tags::lesser;
use fapp_model::NoMemory;
use search_log::ChoiceRef;
use settle_laws::{Found, Node};

/// Notes what was found of the choice that was tried. What ends the search is handed back.
pub fn note_choice(node: &mut Node, found: Found) -> Result<Option<Found>, NoMemory>
    requires { node.old.choice < 2 ^ 16 }
    ensures { NotesBy node.old node.new found result }
{
    match found {
        Found::Dead { tag } => node.tag = lesser(node.tag, tag),
        Found::Settled { line, tag } => {
            node.tag = lesser(node.tag, tag);
            let choice = node.choice as u16;
            node.refs.push(ChoiceRef { choice, line })?;
        }
        Found::Moot { .. } | Found::Spent => return Ok(Some(found)),
    }
    node.choice += 1;
    Ok(None)
}
