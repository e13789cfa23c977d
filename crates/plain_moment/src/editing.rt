//! An edit of an object, out of these free pages.

ghost use Rattle.std.specs.Prelude.{◌≡◌, IfOk};
ghost use Rattle.moment_model.specs.Edit.{given_threshold, empty_tree, change_within, effect_on};
ghost use Rattle.moment_model.specs.Edit.{with_working, after_effect, edited_slot};
ghost use Rattle.moment_model.specs.Edit.{Changes as changes};
ghost use Rattle.plain_plan.specs.Store.{numbers_of};
ghost use Rattle.plain_layout.specs.Answers.{answered};
ghost use Rattle.plain_moment.specs.Effects.{effect_of};

use crate::effect::Effect;
use crate::slot::ObjectSlot;
use crate::version::{copy_version, tree_bytes};
use eos_ops::Edit;
use layout_model::{Change, Extent};
use plain_layout::{Answer, Spaces, Tree, granted, laid};
use plain_plan::{Fail, Store, add, space_pages};
use std::alloc::Global;

/// The threshold of an object that is made.
fn given_threshold(store: &Store, asked: Option<u32>) -> Result<u64, Fail>
    ensures { IfOk result (λ threshold. threshold ≡ given_threshold (numbers_of store.now) asked) }
{
    let most = space_pages(store)? / 2;
    match asked {
        None => Ok(store.threshold),
        Some(threshold) => Ok((threshold as u64).min(most)),
    }
}

/// An object of no byte.
fn empty_tree(alloc: Global, threshold: u64) -> Tree
    ensures { result ≡ empty_tree threshold }
{
    Tree::new(Vec::new(alloc), threshold)
}

/// A change within the bytes of a tree.
fn change_within(alloc: Global, tree: &Tree, change: Change) -> Result<Effect, Fail>
    ensures { IfOk result (λ effect. effect_of effect ≡ change_within tree.now change) }
{
    let length = tree_bytes(alloc, tree)?;
    if change.at > length || change.removed > length - change.at {
        return Ok(Effect::Refuses);
    }
    if add(change.removed, change.added)? == 0 {
        return Ok(Effect::Stays);
    }
    Ok(Effect::Changes(tree.copy(alloc)?, change))
}

/// The effect of an edit on a present object.
fn effect_on_tree(alloc: Global, store: &Store, tree: &Tree, edit: &Edit) -> Result<Effect, Fail>
    ensures { IfOk result (λ effect. effect_of effect
        ≡ effect_on (numbers_of store.now) edit.now (Some tree.now)) }
{
    let (at, removed, added, appends) = match edit {
        Edit::Create { .. } => return Ok(Effect::Refuses),
        Edit::Destroy => return Ok(Effect::Becomes(None)),
        Edit::Append(bytes) => (tree_bytes(alloc, tree)?, 0, bytes.len(), true),
        Edit::Insert { at, bytes } => (*at, 0, bytes.len(), false),
        Edit::Delete { at, len } => (*at, *len, 0, false),
        Edit::Replace { at, bytes } => (*at, bytes.len(), bytes.len(), false),
    };
    change_within(
        alloc,
        tree,
        Change {
            at,
            removed,
            added,
            appends,
        },
    )
}

/// The effect of an edit on a version.
pub fn effect_on(
    alloc: Global,
    store: &Store,
    edit: &Edit,
    version: &Option<Tree>,
) -> Result<Effect, Fail>
    ensures { IfOk result (λ effect. effect_of effect
        ≡ effect_on (numbers_of store.now) edit.now version.now) }
{
    match version {
        None => match edit {
            Edit::Create { threshold } => {
                let threshold = given_threshold(store, *threshold)?;
                Ok(Effect::Becomes(Some(empty_tree(alloc, threshold))))
            }
            _ => Ok(Effect::Refuses),
        },
        Some(tree) => effect_on_tree(alloc, store, tree, edit),
    }
}

/// The slot with another working version and spare.
fn with_working(
    alloc: Global,
    slot: &ObjectSlot,
    version: Option<Tree>,
    spare: Option<Extent>,
) -> Result<ObjectSlot, Fail>
    ensures { IfOk result (λ after. after ≡ with_working slot.now version spare) }
{
    Ok(ObjectSlot::new(copy_version(alloc, slot.committed())?, version, spare))
}

/// The slot after a change of its tree, or the pages that no space had a place for.
fn changed_slot(
    alloc: Global,
    store: &Store,
    start: u64,
    free: &Spaces,
    slot: &ObjectSlot,
    tree: &Tree,
    change: Change,
) -> Result<Answer<ObjectSlot>, Fail>
    ensures { IfOk result (λ answer. answered (λ after. after) answer
        ≡ after_effect (numbers_of store.now) start free.now slot.now (changes tree.now change)) }
{
    match granted(alloc, store, start, tree, slot.spare(), change, free)? {
        Answer::Refused { pages } => Ok(Answer::Refused { pages }),
        Answer::Got {
            value: grants,
            left,
        } => {
            let after = laid(alloc, store, tree, slot.spare(), change, &grants)?;
            let spare = after.spare();
            Ok(Answer::Got {
                value: with_working(alloc, slot, Some(after.into_tree()), spare)?,
                left,
            })
        }
    }
}

/// The slot after an edit, out of these free pages, or the pages that no space had a place for.
#[tactic(auto, unfolding(moment_model::specs::Edit::edited_slot))]
pub fn edited_slot(
    alloc: Global,
    store: &Store,
    start: u64,
    free: &Spaces,
    slot: &ObjectSlot,
    edit: &Edit,
) -> Result<Answer<ObjectSlot>, Fail>
    ensures { IfOk result (λ answer. answered (λ after. after) answer
        ≡ edited_slot (numbers_of store.now) start free.now slot.now edit.now) }
{
    match effect_on(alloc, store, edit, slot.working())? {
        Effect::Refuses | Effect::Stays => Ok(Answer::Got {
            value: slot.copy(alloc)?,
            left: free.copy(alloc)?,
        }),
        Effect::Becomes(version) => Ok(Answer::Got {
            value: with_working(alloc, slot, version, None)?,
            left: free.copy(alloc)?,
        }),
        Effect::Changes(tree, change) => {
            changed_slot(alloc, store, start, free, slot, &tree, change)
        }
    }
}
