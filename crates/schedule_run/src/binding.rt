//! Lines that bind names or print.
ghost use Rattle.std.specs.Prelude.{◌≡◌, ◌+◌, ◌++◌, ◌∷◌, [], suc, OnOk};
ghost use Rattle.exo_tree.specs.PlainUnit.{program};
ghost use Rattle.exo_meaning.specs.Units.{IsUnit};
ghost use Rattle.cursor_forward.specs.Search.PlainPattern.{plain_pattern};
ghost use Rattle.schedule_text.specs.Views.{plain_move};
ghost use Rattle.schedule_calls.specs.Readings.{move};
ghost use Rattle.schedule_calls.specs.PlainRequest.{moves_of};
ghost use Rattle.schedule_laws.specs.Versions.Versions.{bound, version_of, version_at};
ghost use Rattle.schedule_laws.specs.Versions.Versions as plain;
ghost use Rattle.schedule_laws.specs.Versions.Places.{moved_at, then_seek};
ghost use Rattle.schedule_laws.specs.Versions.Lines.{binding, emitting, held_place, is_instruction};
ghost use Rattle.schedule_laws.specs.Versions.Lines.{searched};
ghost use Rattle.schedule_run.specs.Outcomes.{Performs};
ghost use Rattle.config_live.specs.Origins.{origin};
ghost use Rattle.schedule_run.specs.PlainVersions.{held, versions};

use crate::session::{Binding, Held, Session};
use crate::why::Why;
use config_live::Origin;
use cursor_forward::Edits;
use cursor_forward::search::Pattern;
use exo_tree::{Name, ProcId};
use schedule_text::source::Move;
use std::alloc::{AllocError, Global};
use text_lexer::text::Text;

/// The value goes.
pub(crate) fn let_go<T: Drop>(_value: T) {}

impl Session {
    /// Binds the name.
    fn bind(&mut self, alloc: Global, name: &Text, what: Held) -> Result<(), AllocError>
        ensures bound { OnOk result (versions self.new ≡ bound name.now (held what) (versions self.old)) }
        ensures unit { OnOk result (self.new.unit ≡ self.old.unit) }
    {
        let name = Name::new(alloc, name.as_str())?;
        self.names.push(Binding { name, held: what })?;
        Ok(())
    }

    /// Counts a step that made the version of that number, of which the unit holds the procedure,
    /// and binds the name.
    pub(crate) fn add(
        &mut self,
        alloc: Global,
        name: &Text,
        number: ProcId,
        made: Origin,
        edits: Edits,
        shown: u64,
    ) -> Result<(), AllocError>
        ensures added { OnOk result (versions self.new ≡ bound name.now (plain.Version number.0) (record (versions self.old) {
          origins = (versions self.old).origins ++ origin made ∷ [];
          edits = (versions self.old).edits ++ edits ∷ [];
          steps = suc (versions self.old).steps;
          obligations = (versions self.old).obligations + shown;
        })) }
        ensures unit { OnOk result (self.new.unit ≡ self.old.unit) }
    {
        let Some(steps) = self.steps.checked_add(1) else {
            return Err(AllocError);
        };
        let Some(obligations) = self.obligations.checked_add(shown) else {
            return Err(AllocError);
        };
        self.origins.push(made)?;
        self.edits.push(edits)?;
        self.steps = steps;
        self.obligations = obligations;
        self.bind(alloc, name, Held::Version(number))
    }

    /// Binds the name to a match in the version that another one holds, moved.
    fn search(
        &mut self,
        alloc: Global,
        bind: &Text,
        of: &Text,
        pattern: &Pattern,
        nth: u32,
        moves: &[Move],
    ) -> Result<(), Why>
        requires { IsUnit (program self.old.unit) }
        ensures performs { Performs
            (searched (versions self.old) bind.now (plain_pattern pattern.now) nth (moves_of moves.now) (version_of (versions self.old) of.now)) (versions self.new) result }
        ensures unit { OnOk result (self.new.unit ≡ self.old.unit) }
    {
        let Some(j) = self.version_of(of.as_slice()) else {
            return Err(Why::UnknownProc);
        };
        let found = self.matched(j, pattern, nth)?;
        let place = self.moved_at(moves, found)?;
        self.bind(alloc, bind, Held::At(place.version, place.cursor))?;
        Ok(())
    }

    /// The same; the pattern goes.
    pub(crate) fn search_owned(
        &mut self,
        alloc: Global,
        bind: &Text,
        of: &Text,
        pattern: Pattern,
        nth: u32,
        moves: &[Move],
    ) -> Result<(), Why>
        requires { IsUnit (program self.old.unit) }
        ensures performs { Performs
            (searched (versions self.old) bind.now (plain_pattern pattern) nth (moves_of moves.now) (version_of (versions self.old) of.now)) (versions self.new) result }
        ensures unit { OnOk result (self.new.unit ≡ self.old.unit) }
    {
        let done = self.search(alloc, bind, of, &pattern, nth, moves);
        let_go(pattern);
        done
    }

    /// Binds the name to the cursor that another one holds, moved once and then further.
    pub(crate) fn follow(
        &mut self,
        alloc: Global,
        bind: &Text,
        of: &Text,
        first: Move,
        more: &[Move],
    ) -> Result<(), Why>
        ensures performs { Performs
            (binding (versions self.old) bind.now (then_seek (held_place (plain.held (versions self.old) of.now)) (moved_at (versions self.old) (move (plain_move first) ∷ moves_of more.now)))) (versions self.new) result }
        ensures unit { OnOk result (self.new.unit ≡ self.old.unit) }
    {
        let found = self.held_place(of.as_slice())?;
        let place = self.moved_further(first, more, found)?;
        self.bind(alloc, bind, Held::At(place.version, place.cursor))?;
        Ok(())
    }

    /// Whether a version is an instruction.
    fn is_instruction(&self, k: ProcId) -> bool
        ensures { result ≡ is_instruction (version_at (versions self.now) k.0) }
    {
        match self.unit.procs.get(k.0 as usize) {
            Some(p) => p.template.is_some(),
            None => false,
        }
    }

    /// The version that the name holds is to be printed.
    pub(crate) fn emit(&mut self, name: &Text) -> Result<(), Why>
        ensures performs { Performs (emitting (versions self.old) (version_of (versions self.old) name.now))
            (versions self.new) result }
        ensures unit { OnOk result (self.new.unit ≡ self.old.unit) }
    {
        let Some(k) = self.version_of(name.as_slice()) else {
            return Err(Why::UnknownProc);
        };
        if self.is_instruction(k) {
            return Err(Why::BadArguments);
        }
        self.emitted.push(k)?;
        Ok(())
    }
}
