//! The plan of a change: which entries are replaced, by which parts, and where the new bytes go.

ghost use Rattle.std.specs.Prelude.{◌≡◌, IfOk, length};
ghost use Rattle.layout_model.specs.Plan.{fit_of, ask_of, is_kept, begins_kept, ends_kept};
ghost use Rattle.layout_model.specs.Plan.{made_part_bytes, fit_made, merged_one, plan_packed};
ghost use Rattle.layout_model.specs.Plan.{last_entry, plan_extended, fit_appended, planned};
ghost use Rattle.plain_plan.specs.Store.{numbers_of};

use crate::lists::{cons, front, join, one, rest};
use crate::numbers::{Fail, Store, add, mul, page_count, rem, space_pages};
use crate::packing::pack;
use crate::parts::{count_begun, count_ended, one_after, one_before, parts_of};
use layout_model::{Change, Fit, Part};
use std::alloc::Global;
use std::marker::Model;
use tree_model::Pair;

/// Which entries are replaced, the parts in their place, and how these meet the spare pages.
#[derive(Drop)]
pub struct Plan {
    from: u64,
    count: u64,
    parts: Vec<Part>,
    fit: Fit,
}

impl Model for Plan {
    ghost use Rattle.layout_model.specs.Plan.{Plan};

    ghost Value = { Plan };

    ghost view = { λ p. record {
      from = p.from;
      count = p.count;
      parts = p.parts.items;
      fit =
          p.fit;
    } };
}

impl Plan {
    /// The first entry that is replaced.
    pub fn from(&self) -> u64
        ensures { result ≡ self.now.from }
    {
        self.from
    }

    /// How many entries are replaced.
    pub fn count(&self) -> u64
        ensures { result ≡ self.now.count }
    {
        self.count
    }

    /// The parts in their place.
    pub fn parts(&self) -> &[Part]
        ensures { result.now ≡ self.now.parts }
    {
        &self.parts
    }

    /// Where the new bytes go.
    pub fn fit(&self) -> Fit
        ensures { result ≡ self.now.fit }
    {
        self.fit
    }
}

/// The rule for a need of pages.
pub fn fit_of(need: u64, spare: u64, full: bool) -> Fit
    ensures { result ≡ fit_of need spare full }
{
    if need > spare {
        Fit::Fresh
    } else if full {
        Fit::Extend
    } else {
        Fit::Follow
    }
}

/// The pages that an append asks for.
pub fn ask_of(need: u64, last: u64, limit: u64) -> Result<u64, Fail>
    ensures { IfOk result (λ pages. pages ≡ ask_of need last limit) }
{
    Ok(need.max(mul(2, last)?.min(limit)))
}

fn is_kept(part: Part) -> bool
    ensures { result ≡ is_kept part }
{
    match part {
        Part::Keep(_) => true,
        Part::Make(_) => false,
    }
}

fn begins_kept(parts: &[Part]) -> bool
    ensures { result ≡ begins_kept parts.now }
{
    match parts {
        [] => false,
        [part, ..] => is_kept(*part),
    }
}

fn ends_kept(parts: &[Part]) -> bool
    ensures { result ≡ ends_kept parts.now }
{
    match parts {
        [] => false,
        [part] => is_kept(*part),
        [_, after @ ..] => ends_kept(after),
    }
}

/// The bytes of the parts that are made.
pub fn made_part_bytes(alloc: Global, parts: &[Part]) -> Result<Vec<u64>, Fail>
    ensures { IfOk result (λ list. list.items ≡ made_part_bytes parts.now) }
{
    match parts {
        [] => Ok(Vec::new(alloc)),
        [Part::Keep(_), after @ ..] => made_part_bytes(alloc, after),
        [Part::Make(bytes), after @ ..] => cons(*bytes, made_part_bytes(alloc, after)?),
    }
}

fn fit_made(size: u64, appends: bool, spare: u64, made: &[u64]) -> Result<Fit, Fail>
    ensures { IfOk result (λ fit. fit ≡ fit_made size appends spare made.now) }
{
    match made {
        [bytes] => {
            let need = page_count(size, *bytes)?;
            if appends {
                Ok(fit_of(need, spare, false))
            } else {
                Ok(Fit::Fresh)
            }
        }
        _ => Ok(Fit::Fresh),
    }
}

fn merged_one(pairs: &[Pair], kept: bool) -> u64
    ensures { result ≡ merged_one pairs.now kept }
{
    match pairs {
        [] => 0,
        [_, ..] => if kept { 0 } else { 1 },
    }
}

fn plan_packed(
    alloc: Global,
    size: u64,
    entries: &[Pair],
    spare: u64,
    change: Change,
    parts: &[Part],
) -> Result<Plan, Fail>
    ensures { IfOk result (λ plan. plan ≡ plan_packed size entries.now spare change parts.now) }
{
    let end = add(change.at, change.removed)?;
    let before = one_before(change.at, entries)?;
    let after = one_after(end, entries)?;
    let merged_before = merged_one(before, begins_kept(parts));
    let merged_after = merged_one(after, ends_kept(parts));
    let skipped = (before.len() as u64).saturating_sub(merged_before);
    let left_out = add(skipped, (after.len() as u64).saturating_sub(merged_after))?;
    let from = count_ended(change.at, entries)?.saturating_sub(merged_before);
    let to = add(count_begun(end, entries)?, merged_after)?;
    let kept = front(
        (parts.len() as u64).saturating_sub(left_out),
        rest(skipped, parts),
    );
    let made = made_part_bytes(alloc, parts)?;
    Ok(Plan {
        from,
        count: to.saturating_sub(from),
        parts: Vec::from_slice(alloc, kept)?,
        fit: fit_made(size, change.appends, spare, &made)?,
    })
}

/// The last entry, and one of no byte where there is none.
pub fn last_entry(entries: &[Pair]) -> Pair
    ensures { result ≡ last_entry entries.now }
{
    match entries {
        [] => Pair { bytes: 0, page: 0 },
        [p] => *p,
        [_, after @ ..] => last_entry(after),
    }
}

fn plan_extended(alloc: Global, entries: &[Pair], change: Change) -> Result<Plan, Fail>
    ensures { IfOk result (λ plan. plan ≡ plan_extended entries.now change) }
{
    let last = last_entry(entries);
    let grown = Pair {
        bytes: add(last.bytes, change.added)?,
        page: last.page,
    };
    Ok(Plan {
        from: (entries.len() as u64).saturating_sub(1),
        count: 1,
        parts: one(alloc, Part::Keep(grown))?,
        fit: Fit::Extend,
    })
}

fn fit_appended(size: u64, entries: &[Pair], spare: u64, change: Change) -> Result<Fit, Fail>
    ensures { IfOk result (λ fit. fit ≡ fit_appended size entries.now spare change) }
{
    if change.appends {
        let full = rem(last_entry(entries).bytes, size)? == 0;
        Ok(fit_of(page_count(size, change.added)?, spare, full))
    } else {
        Ok(Fit::Fresh)
    }
}

/// The plan of a change of these entries, with `spare` pages behind the last one.
#[tactic(auto, unfolding(layout_model::specs::Plan::planned))]
pub fn planned(
    alloc: Global,
    store: &Store,
    threshold: u64,
    entries: &[Pair],
    spare: u64,
    change: Change,
) -> Result<Plan, Fail>
    ensures { IfOk result (λ plan. plan
        ≡ planned (numbers_of store.now) threshold entries.now spare change) }
{
    let size = store.page;
    match fit_appended(size, entries, spare, change)? {
        Fit::Extend => plan_extended(alloc, entries, change),
        _ => {
            let most = mul(space_pages(store)?, size)?;
            let parts = parts_of(
                alloc,
                size,
                most,
                entries,
                change.at,
                change.removed,
                change.added,
            )?;
            let packed = pack(alloc, size, threshold, &parts)?;
            plan_packed(alloc, size, entries, spare, change, &packed)
        }
    }
}
