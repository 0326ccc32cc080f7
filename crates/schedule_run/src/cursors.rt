//! Cursors that lines ask for: where one is in its own version, and where it went from there.
ghost use Rattle.std.specs.Prelude.{◌≡◌, ◌∷◌, map, Some, IfOk, option_map};
ghost use Rattle.exo_tree.specs.Tree.{block};
ghost use Rattle.exo_tree.specs.PlainUnit.{program};
ghost use Rattle.exo_meaning.specs.Units.{IsUnit};
ghost use Rattle.cursor_forward.specs.Search.PlainPattern.{plain_pattern};
ghost use Rattle.cursor_forward.specs.PlainCursor.{plain_cursor};
ghost use Rattle.schedule_text.specs.Views.{plain_move};
ghost use Rattle.schedule_calls.specs.Readings.{move};
ghost use Rattle.schedule_calls.specs.PlainRequest.{plain_asked, plain_source, moves_of};
ghost use Rattle.schedule_calls.specs.Requests.{Found};
ghost use Rattle.schedule_laws.specs.Versions.Versions as plain;
ghost use Rattle.schedule_laws.specs.Versions.Places as places;
ghost use Rattle.schedule_laws.specs.Versions.Places.{as_place, brought, matched, moved_at};
ghost use Rattle.schedule_laws.specs.Versions.Places.{source_at, sought};
ghost use Rattle.schedule_laws.specs.Versions.Lines.{held_place};
ghost use Rattle.schedule_run.specs.Outcomes.{Finds, Makes};
ghost use Rattle.schedule_run.specs.PlainPlace.{plain_place};
ghost use Rattle.schedule_run.specs.PlainVersions.{versions};
ghost use Rattle.schedule_run.specs.Planned.{as_found};
ghost use Rattle.schedule_run.specs.Ways.{way_to, along};

use crate::session::{Held, Session};
use crate::why::{Missing, Why};
use config_live::descends;
use cursor_forward::laws::units_are_searchable;
use cursor_forward::search::Pattern;
use cursor_forward::{
    Cursor, after, before, body, expand, find, forward, item, next, parent, prev,
};
use exo_tree::{Proc, ProcId};
use schedule_calls::{Asked, Source};
use schedule_text::source::{Direction, Move};
use std::alloc::{AllocError, Global};

/// A cursor in the version of that number.
#[derive(Drop)]
pub(crate) struct Place {
    pub version: ProcId,
    pub cursor: Cursor,
}

/// The same cursor.
fn copy_of(c: &Cursor) -> Cursor
    ensures { plain_cursor result ≡ plain_cursor c.now }
{
    match c {
        Cursor::Node(path) => Cursor::Node(path.duplicate()),
        Cursor::Block(path, count) => Cursor::Block(path.duplicate(), *count),
        Cursor::Gap(path, side) => Cursor::Gap(path.duplicate(), *side),
    }
}

/// One move in a procedure.
fn moved(p: &Proc, m: Move, c: &Cursor) -> Option<Cursor>
    ensures { option_map plain_cursor result
        ≡ places.moved (block p.now.body) (move (plain_move m)) (plain_cursor c.now) }
{
    match m {
        Move::Go(Direction::Parent) => parent(p, c),
        Move::Go(Direction::Next) => next(p, c),
        Move::Go(Direction::Prev) => prev(p, c),
        Move::Go(Direction::Body) => body(p, c),
        Move::Go(Direction::Before) => before(p, c),
        Move::Go(Direction::After) => after(p, c),
        Move::Expand(more_before, more_behind) => expand(p, c, more_before, more_behind),
        Move::Item(k) => item(p, c, k),
    }
}

/// Moves in a procedure, one after the other.
fn moved_all(p: &Proc, moves: &[Move], c: Cursor) -> Option<Cursor>
    ensures { option_map plain_cursor result
        ≡ places.moved_all (block p.now.body) (moves_of moves.now) (plain_cursor c) }
{
    let mut at = c;
    for m in moves {
        at = moved(p, *m, &at)?;
    }
    Some(at)
}

impl Session {
    /// The match of that number of a pattern in a version.
    pub(crate) fn matched(&self, j: ProcId, pattern: &Pattern, nth: u32) -> Result<Place, Missing>
        requires { IsUnit (program self.now.unit) }
        ensures { Finds plain_place (matched (versions self.now) j.0 (plain_pattern pattern.now) nth)
            result }
    {
        units_are_searchable();
        match find(&self.unit, j, pattern, nth) {
            Some(cursor) => Ok(Place { version: j, cursor }),
            None => Err(Missing::NoSuchPattern),
        }
    }

    /// A cursor that a name holds.
    pub(crate) fn held_place(&self, name: &[u8]) -> Result<Place, Missing>
        ensures { Finds plain_place (held_place (plain.held (versions self.now) name.now)) result }
    {
        match self.held(name) {
            Some(Held::At(j, cursor)) => Ok(Place {
                version: *j,
                cursor: copy_of(cursor),
            }),
            Some(Held::Version(_)) | None => Err(Missing::UnknownCursor),
        }
    }

    /// A cursor that a name holds, in a version of which version `k` was made.
    fn place_before(&self, k: ProcId, name: &[u8]) -> Result<Place, Missing>
        ensures { Finds plain_place
            (as_place (versions self.now) k.0 (plain.held (versions self.now) name.now)) result }
    {
        let place = self.held_place(name)?;
        if descends(&self.origins, k, place.version) {
            Ok(place)
        } else {
            Err(Missing::UnknownCursor)
        }
    }

    /// A match in the version that a name holds, of which version `k` was made.
    fn match_before(
        &self,
        k: ProcId,
        name: &[u8],
        pattern: &Pattern,
        nth: u32,
    ) -> Result<Place, Missing>
        requires { IsUnit (program self.now.unit) }
        ensures { Finds plain_place
            (source_at (versions self.now) k.0
            (Found name.now (plain_pattern pattern.now) nth)) result }
    {
        match self.version_of(name) {
            Some(j) => if descends(&self.origins, k, j) {
                self.matched(j, pattern, nth)
            } else {
                Err(Missing::UnknownCursor)
            },
            None => Err(Missing::UnknownCursor),
        }
    }

    /// Where a cursor is looked for, for an operator on version `k`.
    fn source(&self, k: ProcId, source: &Source<'_>) -> Result<Place, Missing>
        requires { IsUnit (program self.now.unit) }
        ensures { Finds plain_place (source_at (versions self.now) k.0 (plain_source source.now)) result }
    {
        match source {
            Source::Under(name) => self.place_before(k, name.as_slice()),
            Source::Found(name, pattern, nth) => self.match_before(
                k,
                name.as_slice(),
                pattern,
                *nth,
            ),
            Source::Here(pattern, nth) => self.matched(k, pattern, *nth),
        }
    }

    /// Moves in the version of a place.
    pub(crate) fn moved_at(&self, moves: &[Move], place: Place) -> Result<Place, Missing>
        ensures { Finds plain_place (moved_at (versions self.now) (moves_of moves.now)
            (plain_place place)) result }
    {
        let Some(p) = self.unit.procs.get(place.version.0 as usize) else {
            return Err(Missing::NoNeighbour);
        };
        match moved_all(p, moves, place.cursor) {
            Some(cursor) => Ok(Place {
                version: place.version,
                cursor,
            }),
            None => Err(Missing::NoNeighbour),
        }
    }

    /// The same of a first move and further ones.
    pub(crate) fn moved_further(
        &self,
        first: Move,
        more: &[Move],
        place: Place,
    ) -> Result<Place, Missing>
        ensures { Finds plain_place (moved_at (versions self.now)
            (move (plain_move first) ∷ moves_of more.now) (plain_place place)) result }
    {
        let Some(p) = self.unit.procs.get(place.version.0 as usize) else {
            return Err(Missing::NoNeighbour);
        };
        match moved(p, first, &place.cursor) {
            Some(cursor) => self.moved_at(
                more,
                Place {
                    version: place.version,
                    cursor,
                },
            ),
            None => Err(Missing::NoNeighbour),
        }
    }

    /// The versions made on the way from one to version `k`, the latest first; None where it was
    /// not made of that.
    fn way(&self, alloc: Global, from: ProcId, k: ProcId) -> Result<Option<Vec<ProcId>>, AllocError>
        ensures { IfOk result (λ way. option_map (λ ks. map (λ (j : ProcId). j.0) ks.items) way
            ≡ way_to (versions self.now) k.0 from.0 k.0) }
    {
        let mut way = Vec::new(alloc);
        let mut at = k;
        let mut left = k.0;
        while left > 0 {
            left -= 1;
            if at.0 == from.0 {
                return Ok(Some(way));
            }
            match self.parent(at) {
                Some(above) => {
                    way.push(at)?;
                    at = above;
                }
                None => return Ok(None),
            }
        }
        Ok(if at.0 == from.0 { Some(way) } else { None })
    }

    /// Where a cursor goes by the step that made version `k`.
    fn stepped(&self, k: ProcId, c: &Cursor) -> Option<Cursor>
        ensures { option_map plain_cursor result
            ≡ places.stepped (versions self.now) k.0 (plain_cursor c.now) }
    {
        forward(c, self.edits.get(k.0 as usize)?)
    }

    /// Where a cursor goes along these versions, the latest first.
    fn along(&self, way: &[ProcId], c: Cursor) -> Option<Cursor>
        ensures { option_map plain_cursor result
            ≡ along (versions self.now) (map (λ (j : ProcId). j.0) way.now) (plain_cursor c) }
    {
        let mut at = c;
        let mut left = way.len();
        while left > 0 {
            left -= 1;
            let k = way[left];
            match self.stepped(k, &at) {
                Some(to) => at = to,
                None => return None,
            }
        }
        Some(at)
    }

    /// Where the cursor of a place went in version `k`.
    fn brought(&self, alloc: Global, k: ProcId, place: Place) -> Result<Cursor, Why>
        ensures { Makes plain_cursor (as_found (brought (versions self.now) k.0 (plain_place place)))
            result }
    {
        match self.way(alloc, place.version, k)? {
            None => Err(Why::NoPlace(Missing::CursorGone)),
            Some(way) => match self.along(&way, place.cursor) {
                Some(cursor) => Ok(cursor),
                None => Err(Why::NoPlace(Missing::CursorGone)),
            },
        }
    }

    /// The cursor that is asked for by an operator on version `k`.
    pub(crate) fn sought(&self, alloc: Global, k: ProcId, asked: &Asked<'_>) -> Result<Cursor, Why>
        requires { IsUnit (program self.now.unit) }
        ensures { Makes plain_cursor (as_found (sought (versions self.now) k.0 (plain_asked asked.now)))
            result }
    {
        let source = self.source(k, &asked.source)?;
        let place = self.moved_at(asked.moves, source)?;
        self.brought(alloc, k, place)
    }
}
