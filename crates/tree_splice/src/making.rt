//! The new nodes: their shape, the pages that are asked for them, and the writing.

ghost use Rattle.std.specs.Prelude.{◌≡◌, ◌≢◌, ℕ, ◌+◌, ◌^◌, ◌<◌, ◌≤◌, [], List, length, map, IsTrue};
ghost use Rattle.std.specs.Prelude.{IfOk, OnOk, Err, None};
ghost use Rattle.block_model.specs.Place.{least_order};
ghost use Rattle.content_laws.specs.Spelling.{HaveBytes};
ghost use Rattle.fault_count.specs.Counts.{HasCause, Reads, Writes};
ghost use Rattle.geometry_model.specs.Numbers.{is_page_size};
ghost use Rattle.layout_model.specs.Levels.{count_made};
ghost use Rattle.local_laws.specs.Left.{nodes_left};
ghost use Rattle.local_laws.specs.Path.{splice_path};
ghost use Rattle.space_directory.specs.SpaceView.{SpaceView};
ghost use Rattle.span_store.specs.Held.{page_at};
ghost use Rattle.superdirectory.specs.Grants.{AreTold, IsGrantFrom, KeepsFrame};
ghost use Rattle.superdirectory.specs.Rest.{count};
ghost use Rattle.superdirectory.specs.Trace.{Part, IsLow};
ghost use Rattle.tree_model.specs.Node.{room_of};
ghost use Rattle.tree_splice.specs.Scratch.{IsPrepared};
ghost use Rattle.tree_splice.specs.Fresh.{AreAllOf, AreAllWritten, ArePagesApart, AreHomely};
ghost use Rattle.tree_splice.specs.Fresh.{AreSamePages, FreshPage, ArePagesAsked, is_on_pages};
ghost use Rattle.tree_splice.specs.Fresh.{page_numbers};
ghost use Rattle.tree_splice.specs.Remade.{remade, row_pages};
ghost use Rattle.tree_splice.specs.Splice.{CanSplice, HaveAnswered, single_run, unit_result};
ghost use Rattle.tree_splice.specs.Way.{AreAllMade, AreSound, levels_of};

use crate::failure::SpliceFail;
use crate::fresh_pages::FreshPages;
use crate::left::left_pages;
use crate::naming::UpFail;
use crate::nodes::write_levels;
use crate::page_runs::Runs;
use crate::path_level::PathLevel;
use crate::place::Place;
use crate::remade::Remade;
use crate::scratch::Scratch;
use crate::up::way_up;
use node_codec::Pair;
use page_port::{Port, Span};
use span_store::Holdings;
use std::alloc::Global;
use superdirectory::Latches;

/// New levels on new pages, and what the old tree loses.
#[derive(Drop)]
pub struct Made {
    /// The new levels, the lowest first.
    pub levels: Vec<Remade>,
    /// The pages of the made nodes.
    pub made: Runs,
    /// The pages of the old nodes that the new tree doesn't have.
    pub left: Runs,
}

/// Makes so many nodes on new pages, which are in the list that is given.
///
/// # Errors
/// As of `splice`. All pages that were granted were given back.
pub fn make<P: Port, L: Latches<S = P::S>>(
    alloc: Global,
    path: &[PathLevel],
    place: Place,
    fresh: &[Pair],
    want: usize,
    held: &Holdings<P::S>,
    port: &mut P,
    latches: &mut L,
    turn: &mut L::Turn,
    start: u16,
    scratch: &mut Scratch,
) -> Result<(Made, FreshPages<P::S>), SpliceFail>
    requires size { IsTrue (is_page_size (P.meter port.old).page) }
    requires frame { (L.rest latches.old).frame.page ≡ (P.meter port.old).page }
    requires prepared { IsPrepared (P.meter port.old).page scratch.old }
    requires sound { AreSound path.now }
    requires some { HaveBytes fresh.now }
    requires small { place.from + place.count < 2 ^ 64 }
    requires can { IsTrue P.S.tells → CanSplice (room_of (P.meter port.old).page)
        path.now place.from place.count fresh.now }
    requires want { want ≡ count_made (splice_path (room_of (P.meter port.old).page)
        path.now place.from place.count fresh.now []) }
    requires from { IsGrantFrom (L.rest latches.old) start 1 }
    ensures levels { IfOk result (λ r. r.0.levels.items
        ≡ map remade (splice_path (room_of (P.meter port.old).page) path.now place.from
        place.count fresh.now (page_numbers r.1.pages))) }
    ensures few { IfOk result (λ r. length r.0.levels.items < 256) }
    ensures sound { IfOk result
        (λ r. AreAllMade (room_of (P.meter port.old).page) r.0.levels.items) }
    ensures made { IfOk result (λ r. r.0.made ≡ map single_run (page_numbers r.1.pages)) }
    ensures left { IfOk result (λ r. r.0.left ≡ map single_run (row_pages
        (nodes_left (levels_of path.now) (splice_path (room_of (P.meter port.old).page)
        path.now place.from place.count fresh.now (page_numbers r.1.pages))))) }
    ensures all { IfOk result (λ r. length r.1.pages ≡ want) }
    ensures written { IfOk result (λ r. IsTrue P.S.tells
        → AreAllWritten 1 r.0.levels.items r.1.pages) }
    ensures lacked { IfOk result (λ r. (q : ℕ) → IsTrue (is_on_pages q (page_numbers r.1.pages))
        → page_at held.now q ≡ None) }
    ensures apart { IfOk result (λ r. ArePagesApart r.1.pages) }
    ensures home { IfOk result (λ r. AreHomely P.S.tells (L.rest latches.old).frame r.1.pages) }
    ensures sized { IfOk result (λ r. AreAllOf P.S.tells (P.meter port.old).page r.1.pages) }
    ensures prepared { IsPrepared (P.meter port.old).page scratch.new }
    ensures rest { KeepsFrame (L.rest latches.old) (L.rest latches.new) }
    ensures told { (views : List SpaceView) → AreTold (L.rest latches.old) views
        → length views ≡ count (L.rest latches.old)
        → HaveAnswered (λ r. page_numbers r.1.pages) views start want (L.rest latches.old).frame
        result (L.rest latches.new) }
    ensures low { Part (λ part. (result ≡ Err SpliceFail.NoSpace) → (space : ℕ)
        → space < count (L.rest latches.old) → IsLow space (least_order 1) part)
        (L.trace latches.old) (L.trace latches.new) }
    ensures writes { Writes want (P.meter port.old) (P.meter port.new) }
    ensures cause { HasCause (P.meter port.old).faults (P.meter port.new).faults
        (result ≡ Err SpliceFail.Fault) }
{
    let mut pages = FreshPages::with_room(alloc, want)?;
    match fill(
        alloc, path, place, fresh, want, held, port, latches, turn, start, &mut pages, scratch,
    ) {
        Ok(made) => Ok((made, pages)),
        Err(fail) => {
            pages.give_back(latches, turn);
            Err(fail)
        }
    }
}

/// Asks for so many pages, makes the new levels on them, and writes the made nodes.
///
/// # Errors
/// As of `splice`. The pages that were granted until then stay in the list.
fn fill<P: Port, L: Latches<S = P::S>>(
    alloc: Global,
    path: &[PathLevel],
    place: Place,
    fresh: &[Pair],
    want: usize,
    held: &Holdings<P::S>,
    port: &mut P,
    latches: &mut L,
    turn: &mut L::Turn,
    start: u16,
    pages: &mut FreshPages<P::S>,
    scratch: &mut Scratch,
) -> Result<Made, SpliceFail>
    requires size { IsTrue (is_page_size (P.meter port.old).page) }
    requires frame { (L.rest latches.old).frame.page ≡ (P.meter port.old).page }
    requires prepared { IsPrepared (P.meter port.old).page scratch.old }
    requires sound { AreSound path.now }
    requires some { HaveBytes fresh.now }
    requires small { place.from + place.count < 2 ^ 64 }
    requires can { IsTrue P.S.tells → CanSplice (room_of (P.meter port.old).page)
        path.now place.from place.count fresh.now }
    requires want { want ≡ count_made (splice_path (room_of (P.meter port.old).page)
        path.now place.from place.count fresh.now []) }
    requires from { IsGrantFrom (L.rest latches.old) start 1 }
    requires none { pages.old.pages ≡ [] }
    requires room { want ≤ pages.old.room }
    ensures levels { IfOk result (λ m. m.levels.items
        ≡ map remade (splice_path (room_of (P.meter port.old).page) path.now place.from
        place.count fresh.now (page_numbers pages.new.pages))) }
    ensures few { IfOk result (λ m. length m.levels.items < 256) }
    ensures sound { IfOk result (λ m. AreAllMade (room_of (P.meter port.old).page) m.levels.items) }
    ensures made { IfOk result (λ m. m.made ≡ map single_run (page_numbers pages.new.pages)) }
    ensures left { IfOk result (λ m. m.left ≡ map single_run (row_pages
        (nodes_left (levels_of path.now) (splice_path (room_of (P.meter port.old).page)
        path.now place.from place.count fresh.now (page_numbers pages.new.pages))))) }
    ensures all { OnOk result (length pages.new.pages ≡ want) }
    ensures written { IfOk result (λ m. IsTrue P.S.tells
        → AreAllWritten 1 m.levels.items pages.new.pages) }
    ensures lacked { (q : ℕ) → IsTrue (is_on_pages q (page_numbers pages.new.pages))
        → page_at held.now q ≡ None }
    ensures apart { ArePagesApart pages.new.pages }
    ensures home { AreHomely P.S.tells (L.rest latches.old).frame pages.new.pages }
    ensures sized { AreAllOf P.S.tells (P.meter port.old).page pages.new.pages }
    ensures prepared { IsPrepared (P.meter port.old).page scratch.new }
    ensures rest { KeepsFrame (L.rest latches.old) (L.rest latches.new) }
    ensures told { (views : List SpaceView) → AreTold (L.rest latches.old) views
        → length views ≡ count (L.rest latches.old)
        → ((granted : List FreshPage) × AreSamePages granted pages.new.pages
        × ((result ≡ Err SpliceFail.NoSpace) → pages.new.pages ≡ granted)
        × ArePagesAsked views start want (L.rest latches.old).frame granted (unit_result result)
        (L.rest latches.new)) }
    ensures low { Part (λ part. (result ≡ Err SpliceFail.NoSpace) → (space : ℕ)
        → space < count (L.rest latches.old) → IsLow space (least_order 1) part)
        (L.trace latches.old) (L.trace latches.new) }
    ensures writes { Writes want (P.meter port.old) (P.meter port.new) }
    ensures cause { HasCause (P.meter port.old).faults (P.meter port.new).faults
        (result ≡ Err SpliceFail.Fault) }
{
    ask_all(latches, turn, start, want, held, pages)?;
    let levels = new_levels(alloc, port, path, place, fresh, pages.numbers())?;
    let made = Runs::singles(alloc, pages.numbers())?;
    let left = Runs::singles(alloc, &left_pages(alloc, path, &levels)?)?;
    write_levels(port, &levels, 1, pages, 0, scratch)?;
    Ok(Made { levels, made, left })
}

/// Asks for so many pages.
///
/// # Errors
/// `NoSpace` and `Memory`, as of one page. The pages that were granted until then stay in the list.
fn ask_all<S: Span, L: Latches<S = S>>(
    latches: &mut L,
    turn: &mut L::Turn,
    start: u16,
    want: usize,
    held: &Holdings<S>,
    pages: &mut FreshPages<S>,
) -> Result<(), SpliceFail>
    requires from { IsGrantFrom (L.rest latches.old) start 1 }
    requires none { pages.old.pages ≡ [] }
    requires room { want ≤ pages.old.room }
    ensures all { OnOk result (length pages.new.pages ≡ want) }
    ensures lacked { (q : ℕ) → IsTrue (is_on_pages q (page_numbers pages.new.pages))
        → page_at held.now q ≡ None }
    ensures apart { ArePagesApart pages.new.pages }
    ensures home { AreHomely S.tells (L.rest latches.old).frame pages.new.pages }
    ensures rest { KeepsFrame (L.rest latches.old) (L.rest latches.new) }
    ensures no_fault { result ≢ Err SpliceFail.Fault }
    ensures told { (views : List SpaceView) → AreTold (L.rest latches.old) views
        → length views ≡ count (L.rest latches.old)
        → ArePagesAsked views start want (L.rest latches.old).frame pages.new.pages result
        (L.rest latches.new) }
    ensures low { Part (λ part. (result ≡ Err SpliceFail.NoSpace) → (space : ℕ)
        → space < count (L.rest latches.old) → IsLow space (least_order 1) part)
        (L.trace latches.old) (L.trace latches.new) }
{
    for _page in 0..want {
        match pages.ask(latches, turn, start, held) {
            Ok(()) => (),
            Err(fail) => return Err(fail),
        }
    }
    Ok(())
}

/// The new levels of a tree as the way shows them, on these pages and on page 0 where none is left.
///
/// # Errors
/// `Fault` where no tree has such levels: the device gave nodes that were never written, and the
/// count of faults rose. `Memory` where there was no memory.
pub fn new_levels<P: Port>(
    alloc: Global,
    port: &mut P,
    path: &[PathLevel],
    place: Place,
    fresh: &[Pair],
    pages: &[u32],
) -> Result<Vec<Remade>, SpliceFail>
    requires size { IsTrue (is_page_size (P.meter port.old).page) }
    requires small { place.from + place.count < 2 ^ 64 }
    requires can { IsTrue P.S.tells → CanSplice (room_of (P.meter port.old).page)
        path.now place.from place.count fresh.now }
    ensures levels { IfOk result (λ levels. levels.items
        ≡ map remade (splice_path (room_of (P.meter port.old).page) path.now place.from
        place.count fresh.now pages.now)) }
    ensures few { IfOk result (λ levels. length levels.items < 256) }
    ensures some_space { result ≢ Err SpliceFail.NoSpace }
    ensures reads { Reads 0 (P.meter port.old) (P.meter port.new) }
    ensures cause { HasCause (P.meter port.old).faults (P.meter port.new).faults
        (result ≡ Err SpliceFail.Fault) }
{
    let f = fan_out(port.page());
    match way_up(alloc, f, path, place.from, place.count, fresh, pages) {
        Ok(levels) => {
            if levels.len() < 256 {
                return Ok(levels);
            }
            port.blame();
            Err(SpliceFail::Fault)
        }
        Err(UpFail::Wide) => {
            port.blame();
            Err(SpliceFail::Fault)
        }
        Err(UpFail::Memory) => Err(SpliceFail::Memory),
    }
}

/// The pairs that a node on a page of this size has room for.
fn fan_out(page: u32) -> usize
    requires { IsTrue (is_page_size page) }
    ensures room { result ≡ room_of page }
    ensures some { 0 < result }
    ensures fits { result < 2 ^ 32 }
{
    page.saturating_sub(8) as usize / 12
}
