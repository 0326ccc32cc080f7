//! How large the parameters of procedures can be, by what calls give.
ghost use Rattle.std.specs.Prelude.{◌≡◌, ◌<◌, ◌==◌, ◌&&◌, ℕ, [], max, map, length, replicate, get_or, if◌then◌else◌, IfOk};
ghost use Rattle.exo_tree.specs.Tree.{Procedure};
ghost use Rattle.exo_tree.specs.PlainProcedure.{procedure};
ghost use Rattle.c_widths.specs.Given.{IsChanged};

use exo_tree::{Proc, ProcId};
use std::alloc::{AllocError, Global};
use std::marker::Model;

/// The greatest magnitude that is given to each parameter of one procedure.
#[derive(Drop)]
struct GivenRow {
    most: Vec<u64>,
}

impl Model for GivenRow {
    ghost use Rattle.std.specs.Prelude.{List, ℕ};
    ghost use Rattle.exo_tree.specs.Codes.{name_code};

    ghost Value = { List ℕ };

    ghost coded = { name_code };

    ghost view = { λ r. r.most.items };
}

impl GivenRow {
    /// Nothing given to so many parameters.
    fn new(alloc: Global, count: usize) -> Result<GivenRow, AllocError>
        ensures { IfOk result (λ r. r ≡ replicate count 0) }
    {
        let most = vec![in alloc; 0; count]?;
        Ok(GivenRow { most })
    }

    /// Gives at most `m` more to the parameter at the place `i`.
    fn raise(&mut self, i: usize, m: u64)
        ensures same { length self.new ≡ length self.old }
        ensures each { (n : ℕ)
            → n < length self.old
            → get_or self.new n 0
            ≡ (if n == i then max m (get_or self.old n 0) else get_or self.old n 0) }
    {
        if i < self.most.len() {
            self.most[i] = m.max(self.most[i]);
        }
    }

    fn as_slice(&self) -> &[u64]
        ensures { result.now ≡ self.now }
    {
        self.most.as_slice()
    }
}

/// The greatest magnitude that calls give to each parameter of each procedure of a unit.
#[derive(Drop)]
pub(crate) struct Given {
    rows: Vec<GivenRow>,
}

impl Model for Given {
    ghost use Rattle.std.specs.Prelude.{List, ℕ, map};
    ghost use Rattle.std.specs.Coded.{coded_list};
    ghost use Rattle.exo_tree.specs.Codes.{name_code};

    ghost Value = { List (List ℕ) };

    ghost coded = { coded_list name_code };

    ghost view = { λ g. g.rows.items };
}

impl Given {
    /// No procedures.
    pub(crate) fn new(alloc: Global) -> Given
        ensures { result ≡ [] }
    {
        Given {
            rows: Vec::new(alloc),
        }
    }

    /// Nothing given to these procedures.
    pub(crate) fn nothing(alloc: Global, procs: &[Proc]) -> Result<Given, AllocError>
        ensures { IfOk result (λ g. g ≡ map (λ (p : Procedure). replicate (length p.params) 0) (map procedure procs.now)) }
    {
        let mut rows = Vec::new(alloc);
        for p in procs {
            let row = GivenRow::new(alloc, p.params.len())?;
            rows.push(row)?;
        }
        Ok(Given { rows })
    }

    /// Gives at most `m` more to the parameter at the place `i` of the procedure `p`.
    pub(crate) fn raise(&mut self, p: ProcId, i: usize, m: u64)
        ensures { IsChanged (λ given j n. if (j == p.0) && (n == i) then max m (given j n) else given j n) self.old self.new }
    {
        let k = p.0 as usize;
        if k < self.rows.len() {
            self.rows[k].raise(i, m);
        }
    }

    /// What is given to the procedure of that number.
    pub(crate) fn to(&self, k: usize) -> &[u64]
        ensures { result.now ≡ get_or self.now k [] }
    {
        match self.rows.get(k) {
            Some(row) => row.as_slice(),
            None => &[],
        }
    }
}
