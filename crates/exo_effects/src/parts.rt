//! Which part of a buffer each name of a procedure stands for.
ghost use Rattle.std.specs.Prelude.{◌≡◌, IfOk, OnOk, Some, None, map, option_map, take, length};
ghost use Rattle.std.specs.Option.{option_copied};
ghost use Rattle.exo_meaning.specs.Scene.{updated};
ghost use Rattle.exo_tree.specs.PlainArgument.{argument};
ghost use Rattle.exo_tree.specs.PlainParam.{parameter_kind};
ghost use Rattle.exo_tree.specs.PlainStatement.{statement};
ghost use Rattle.exo_effects.specs.Parts as plain;
ghost use Rattle.exo_effects.specs.Parts.{no_parts, all_of, whole_of, window_of, with_kind, with_params, passed, passed_inside};
ghost use Rattle.exo_effects.specs.Uses.{part_of_argument};
ghost use Rattle.exo_effects.specs.PlainParts.{plain_part, part_among, parts_in};

use crate::windows::joined;
use exo_tree::{Arg, Coord, Coords, Ctrl, Id, Indices, ParamKind, Params, Stmt};
use std::alloc::{AllocError, Global};

/// A root, with a point or a span for each of its dimensions.
#[derive(Drop)]
pub(crate) struct Part {
    pub(crate) root: Id,
    pub(crate) coords: Coords,
}

impl Part {
    /// All of a buffer of these dimensions.
    fn whole(alloc: Global, root: Id, dims: &Indices) -> Result<Part, AllocError>
        ensures { IfOk result (λ p. plain_part p ≡ whole_of root.0 dims.now) }
    {
        let mut coords = Coords::new(alloc);
        for d in dims.as_slice() {
            coords.push(Coord::Span(Ctrl::Lit(0), d.duplicate(alloc)?))?;
        }
        Ok(Part { root, coords })
    }

    /// A window of it.
    fn window(&self, alloc: Global, coords: &Coords) -> Result<Part, AllocError>
        ensures { IfOk result (λ p. plain_part p ≡ window_of coords.now (plain_part self.now)) }
    {
        Ok(Part {
            root: self.root,
            coords: joined(alloc, &self.coords, coords)?,
        })
    }

    /// The same part.
    pub(crate) fn duplicate(&self, alloc: Global) -> Result<Part, AllocError>
        ensures { IfOk result (λ p. plain_part p ≡ plain_part self.now) }
    {
        Ok(Part {
            root: self.root,
            coords: self.coords.duplicate(alloc)?,
        })
    }
}

/// A name, and the part that it stands for; None where it stands for a buffer that is left out.
#[derive(Drop)]
pub(crate) struct Named {
    name: Id,
    part: Option<Part>,
}

/// For each name that stands for a buffer which counts: the part that it stands for. The last one of a name decides.
#[derive(Drop)]
pub(crate) struct Parts {
    names: Vec<Named>,
}

impl Parts {
    /// No name stands for a buffer.
    pub(crate) fn new(alloc: Global) -> Parts
        ensures { parts_in result ≡ no_parts }
    {
        Parts {
            names: Vec::new(alloc),
        }
    }

    /// How many names there are.
    pub(crate) fn len(&self) -> usize
        ensures { result ≡ length self.now.names.items }
    {
        self.names.len()
    }

    /// Forgets all names but the first so many.
    pub(crate) fn truncate(&mut self, known: usize)
        ensures { self.new.names.items ≡ take known self.old.names.items }
    {
        self.names.truncate(known);
    }

    /// What a name stands for; None where that is no buffer, or one that is left out.
    pub(crate) fn get(&self, x: Id) -> Option<&Part>
        ensures { option_map plain_part (option_copied result) ≡ parts_in self.now x.0 }
    {
        let mut found = None;
        for named in &self.names {
            if x.0 == named.name.0 {
                found = named.part.as_ref();
            }
        }
        found
    }

    fn set(&mut self, name: Id, part: Option<Part>) -> Result<(), AllocError>
        ensures set { OnOk result (parts_in self.new ≡ updated (parts_in self.old) name.0 (option_map plain_part part)) }
        ensures kept { OnOk result (take (length self.old.names.items) self.new.names.items ≡ self.old.names.items) }
    {
        self.names.push(Named { name, part })?;
        Ok(())
    }

    /// The part that a window of a name stands for.
    pub(crate) fn window(
        &self,
        alloc: Global,
        x: Id,
        coords: &Coords,
    ) -> Result<Option<Part>, AllocError>
        ensures { IfOk result (λ o. option_map plain_part o ≡ option_map (window_of coords.now) (parts_in self.now x.0)) }
    {
        match self.get(x) {
            None => Ok(None),
            Some(part) => Ok(Some(part.window(alloc, coords)?)),
        }
    }

    /// The part that a name stands for.
    fn whole(&self, alloc: Global, x: Id) -> Result<Option<Part>, AllocError>
        ensures { IfOk result (λ o. option_map plain_part o ≡ parts_in self.now x.0) }
    {
        match self.get(x) {
            None => Ok(None),
            Some(part) => Ok(Some(part.duplicate(alloc)?)),
        }
    }

    /// The part that an argument passes.
    pub(crate) fn argument(&self, alloc: Global, a: &Arg) -> Result<Option<Part>, AllocError>
        ensures { IfOk result (λ o. option_map plain_part o ≡ part_of_argument (parts_in self.now) (argument a.now)) }
    {
        match a {
            Arg::Ctrl(_) | Arg::Cond(_) => Ok(None),
            Arg::Whole(x) => self.whole(alloc, *x),
            Arg::Window(x, coords) => self.window(alloc, *x, coords),
        }
    }

    fn insert_kind(&mut self, alloc: Global, x: Id, kind: &ParamKind) -> Result<(), AllocError>
        ensures { OnOk result (parts_in self.new ≡ with_kind x.0 (parameter_kind kind.now) (parts_in self.old)) }
    {
        match kind {
            ParamKind::Ctrl(_) => Ok(()),
            ParamKind::Tensor(_, dims, _) | ParamKind::Window(_, dims, _) => {
                self.set(x, Some(Part::whole(alloc, x, dims)?))
            }
        }
    }

    /// Each buffer among the parameters stands for itself.
    pub(crate) fn insert_params(&mut self, alloc: Global, params: &Params) -> Result<(), AllocError>
        ensures { OnOk result (parts_in self.new ≡ with_params params.now (parts_in self.old)) }
    {
        for p in params.as_slice() {
            self.insert_kind(alloc, p.binder.id, &p.kind)?;
        }
        Ok(())
    }

    /// Goes past a statement on the way to a piece.
    pub(crate) fn pass(&mut self, alloc: Global, s: &Stmt) -> Result<(), AllocError>
        ensures { OnOk result (parts_in self.new ≡ passed (statement s.now) (parts_in self.old)) }
    {
        match s {
            Stmt::Alloc(x, _, dims, _) => self.set(x.id, Some(Part::whole(alloc, x.id, dims)?)),
            Stmt::View(w, x, coords) => {
                let part = self.window(alloc, *x, coords)?;
                self.set(w.id, part)
            }
            _ => Ok(()),
        }
    }

    /// Goes past a statement of the piece: a buffer that it makes is left out.
    pub(crate) fn pass_inside(&mut self, alloc: Global, s: &Stmt) -> Result<(), AllocError>
        ensures passed { OnOk result (parts_in self.new ≡ passed_inside (statement s.now) (parts_in self.old)) }
        ensures kept { OnOk result (take (length self.old.names.items) self.new.names.items ≡ self.old.names.items) }
    {
        match s {
            Stmt::Alloc(x, _, _, _) => self.set(x.id, None),
            Stmt::View(w, x, coords) => {
                let part = self.window(alloc, *x, coords)?;
                self.set(w.id, part)
            }
            _ => Ok(()),
        }
    }
}
