//! The pages of the nodes that a tree doesn't have any more.

ghost use Rattle.std.specs.Prelude.{◌≡◌, List, ◌++◌, map, IfOk, OnOk};
ghost use Rattle.layout_model.specs.Levels.{NewLevel};
ghost use Rattle.local_laws.specs.Path.{PathLevel};
ghost use Rattle.local_laws.specs.Left.{nodes_left};
ghost use Rattle.tree_splice.specs.Remade.{pages_left, row_pages, remade};

use crate::path_level::PathLevel;
use crate::remade::Remade;
use crate::slices::{front, rest};
use std::alloc::{AllocError, Global};

/// The pages of the nodes on the way that the new levels don't have any more: those that made nodes
/// replace, and all of a level in whose place none stands.
pub fn left_pages(
    alloc: Global,
    path: &[PathLevel],
    levels: &[Remade],
) -> Result<Vec<u32>, AllocError>
    ensures { (new : List NewLevel) → levels.now ≡ map remade new
        → IfOk result (λ pages. pages.items
        ≡ row_pages (nodes_left (map (λ level. level.nodes) path.now) new)) }
{
    let mut pages = Vec::new(alloc);
    push_left(path, levels, &mut pages)?;
    Ok(pages)
}

/// Appends these pages.
fn push_left(path: &[PathLevel], levels: &[Remade], into: &mut Vec<u32>) -> Result<(), AllocError>
    ensures { OnOk result (into.new.items ≡ into.old.items ++ pages_left path.now levels.now) }
{
    let [level, above @ ..] = path else {
        return Ok(());
    };
    let [new, higher @ ..] = levels else {
        into.extend_from_slice(level.nodes().pages())?;
        return push_left(above, levels, into);
    };
    let behind = rest(level.nodes().pages(), new.from);
    into.extend_from_slice(front(behind, new.count))?;
    push_left(above, higher, into)
}
