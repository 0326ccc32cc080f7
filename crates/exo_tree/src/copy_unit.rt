//! Copies of procedures. A copy is the same plain tree.
ghost use Rattle.std.specs.Prelude.{◌≡◌, IfOk};
ghost use Rattle.exo_tree.specs.Tree.{block};
ghost use Rattle.exo_tree.specs.PlainParam.{parameter_kind, parameter};
ghost use Rattle.exo_tree.specs.PlainProcedure.{procedure};

use crate::block::Block;
use crate::param::{Param, ParamKind};
use crate::procedure::Proc;
use crate::text::Text;
use std::alloc::{AllocError, Global};

impl ParamKind {
    pub fn duplicate(&self, alloc: Global) -> Result<ParamKind, AllocError>
        ensures { IfOk result (λ k. parameter_kind k ≡ parameter_kind self.now) }
    {
        match self {
            ParamKind::Ctrl(kind) => Ok(ParamKind::Ctrl(*kind)),
            ParamKind::Tensor(cell, dims, memory) => Ok(ParamKind::Tensor(
                *cell,
                dims.duplicate(alloc)?,
                *memory,
            )),
            ParamKind::Window(cell, dims, memory) => Ok(ParamKind::Window(
                *cell,
                dims.duplicate(alloc)?,
                *memory,
            )),
        }
    }
}

impl Param {
    pub fn duplicate(&self, alloc: Global) -> Result<Param, AllocError>
        ensures { IfOk result (λ p. parameter p ≡ parameter self.now) }
    {
        Ok(Param {
            binder: self.binder.duplicate(alloc)?,
            kind: self.kind.duplicate(alloc)?,
        })
    }
}

/// A copy of a template, where there is one.
fn copied_template(alloc: Global, template: &Option<Text>) -> Result<Option<Text>, AllocError>
    ensures { IfOk result (λ t. t ≡ template.now) }
{
    match template {
        Some(text) => Ok(Some(text.duplicate(alloc)?)),
        None => Ok(None),
    }
}

impl Proc {
    /// A copy with another body.
    pub fn with_body(&self, alloc: Global, body: Block) -> Result<Proc, AllocError>
        ensures { IfOk result (λ q. procedure q
            ≡ record (procedure self.now) { body = block body }) }
    {
        Ok(Proc {
            name: self.name.duplicate(alloc)?,
            params: self.params.duplicate(alloc)?,
            asserts: self.asserts.duplicate(alloc)?,
            body,
            template: copied_template(alloc, &self.template)?,
        })
    }

    pub fn duplicate(&self, alloc: Global) -> Result<Proc, AllocError>
        ensures { IfOk result (λ p. procedure p ≡ procedure self.now) }
    {
        let body = self.body.duplicate(alloc)?;
        self.with_body(alloc, body)
    }
}
