//! Statements and blocks.
ghost use Rattle.std.specs.Prelude.{◌≡◌, [], ◌∷◌, ◌++◌, ◌+◌, ◌<◌, ◌≤◌, length, drop, map, slice_range, OnOk, OnErr, IfOk, slice_get, option_map};
ghost use Rattle.std.specs.Option.{option_copied};
ghost use Rattle.exo_tree.specs.Held.{held_statements};
ghost use Rattle.exo_tree.specs.Nodes.{nodes, nodes_of};
ghost use Rattle.exo_tree.specs.PlainStatement.{statement};

use crate::argument::{Arg, Args};
use crate::binder::Binder;
use crate::control::{Cond, Ctrl};
use crate::data::DataExpr;
use crate::list::{Coords, Indices};
use crate::number::{Cell, FieldId, Id, MemId, ProcId};
use std::alloc::{AllocError, Global};
use std::marker::Model;
use std::sync::Arc;

/// A statement.
#[cycle(tree)]
pub enum Stmt {
    /// `x[..] = e`
    Assign(Id, Indices, DataExpr),
    /// `x[..] += e`
    Reduce(Id, Indices, DataExpr),
    /// A write of a configuration field.
    Config(FieldId, Arg),
    Pass,
    /// A condition with its branches; the second is empty where the text has no `else`.
    If(Cond, Block, Block),
    /// A loop from its lower bound up to the upper one, which it does not reach.
    For(Binder, Ctrl, Ctrl, Block),
    /// A buffer that lives to the end of its block.
    Alloc(Binder, Cell, Indices, MemId),
    /// A name for a window of a buffer or view, to the end of its block.
    View(Binder, Id, Coords),
    Call(ProcId, Args),
}

impl Drop for Stmt {
    #[cycle(dropped)]
    fn drop(self) {
        match self {
            Self::Assign(_, _, _)
            | Self::Reduce(_, _, _)
            | Self::Config(_, _)
            | Self::Pass
            | Self::If(_, _, _)
            | Self::For(_, _, _, _)
            | Self::Alloc(_, _, _, _)
            | Self::View(_, _, _)
            | Self::Call(_, _) => {}
        }
    }
}

/// Statements in their order.
#[cycle(tree)]
pub struct Block {
    held: Held,
}

impl Drop for Block {
    #[cycle(dropped)]
    fn drop(self) {
        let Self { held: _ } = self;
    }
}

/// The list of a block: its own, or one that other blocks have too and that is copied
/// before it grows.
#[cycle(tree)]
enum Held {
    Own(Vec<Arc<Stmt>>),
    Shared(Arc<Vec<Arc<Stmt>>>),
}

impl Drop for Held {
    #[cycle(dropped)]
    fn drop(self) {
        match self {
            Self::Own(_) => {}
            Self::Shared(_) => {}
        }
    }
}

impl Model for Block {
    ghost use Rattle.std.specs.Prelude.{List};
    ghost use Rattle.std.specs.Coded.{coded_list};
    ghost use Rattle.exo_tree.specs.Tree.{Statement};
    ghost use Rattle.exo_tree.specs.Nodes.{nodes_of};
    ghost use Rattle.exo_tree.specs.Codes.{statement_code};

    ghost Value = { List Statement };

    ghost coded = { coded_list statement_code };

    ghost use Rattle.exo_tree.specs.Held.{held_statements};

    ghost view = { λ b. held_statements b.held };

    ghost size = { nodes_of };

    ghost use Rattle.std.proofs.Common.{arith};
    ghost use Rattle.exo_tree.specs.Falls.{held_le-nodes};

    ghost size_decreases = { λ a h. omega (arith, held_le-nodes a.held) };
}

impl Held {
    fn list(&self) -> &Vec<Arc<Stmt>>
        ensures { map (λ s. statement s.value) result.now.items ≡ held_statements self.now }
    {
        match self {
            Held::Own(list) => list,
            Held::Shared(list) => list.as_ref(),
        }
    }

    /// Puts a statement last, in a list of the block's own. After want of memory the list is
    /// unchanged.
    fn push(&mut self, s: Arc<Stmt>) -> Result<(), AllocError>
        ensures pushed { OnOk result (held_statements self.new
            ≡ held_statements self.old ++ statement s.value ∷ []) }
        ensures unchanged { OnErr result (held_statements self.new ≡ held_statements self.old) }
    {
        if let Held::Own(list) = self {
            list.push(s)?;
            return Ok(());
        }
        let mut own = references(self.list())?;
        own.push(s)?;
        *self = Held::Own(own);
        Ok(())
    }

    /// The same list, shared from then on if it was not before.
    fn shared(&self) -> Result<Held, AllocError>
        ensures { IfOk result (λ h. held_statements h ≡ held_statements self.now) }
    {
        match self {
            Held::Own(list) => {
                let alloc = *list.allocator();
                Ok(Held::Shared(Arc::new(alloc, references(list)?)?))
            }
            Held::Shared(list) => Ok(Held::Shared(list.clone()?)),
        }
    }
}

/// A list of references to the same statements.
fn references(list: &Vec<Arc<Stmt>>) -> Result<Vec<Arc<Stmt>>, AllocError>
    ensures { IfOk result (λ made. map (λ s. statement s.value) made.items
        ≡ map (λ s. statement s.value) list.now.items) }
{
    let mut made = Vec::with_capacity(*list.allocator(), list.len())?;
    for s in list {
        made.push(s.clone()?)?;
    }
    Ok(made)
}

impl Block {
    /// The empty block.
    pub fn new(alloc: Global) -> Block
        ensures { result ≡ [] }
    {
        Block {
            held: Held::Own(Vec::new(alloc)),
        }
    }

    pub fn len(&self) -> usize
        ensures { result ≡ length self.now }
    {
        self.held.list().len()
    }

    /// Puts the statement last. After want of memory the block is unchanged.
    pub fn push(&mut self, s: Stmt) -> Result<(), AllocError>
        ensures pushed { OnOk result (self.new ≡ self.old ++ statement s ∷ []) }
        ensures unchanged { OnErr result (self.new ≡ self.old) }
    {
        let alloc = *self.held.list().allocator();
        self.held.push(Arc::new(alloc, s)?)
    }

    /// The statement at that index; None exactly where the block is not so long.
    pub fn get(&self, k: usize) -> Option<&Stmt>
        ensures { option_map statement (option_copied result) ≡ slice_get self.now k }
    {
        match self.held.list().get(k) {
            Some(s) => Some(s.as_ref()),
            None => None,
        }
    }

    /// The statement at an index that is there, before the rest.
    pub fn statement(&self, k: usize) -> &Stmt
        requires { k < length self.now }
        ensures value { drop k self.now ≡ statement result.now ∷ drop (k + 1) self.now }
        ensures smaller { nodes (statement result.now) ≤ nodes_of self.now }
    {
        self.held.list()[k].as_ref()
    }

    /// Puts a statement of another block last.
    fn share(&mut self, s: &Arc<Stmt>) -> Result<(), AllocError>
        ensures { OnOk result (self.new ≡ self.old ++ statement s.now.value ∷ []) }
    {
        self.held.push(s.clone()?)
    }

    /// Appends the statements of `part` from `from` up to `to`, which both blocks have from then
    /// on; to an empty block the whole of `part` as the list that both share.
    #[tactic(auto, using(crate::proofs::Trees::whole_range))]
    pub fn append_part(
        &mut self,
        alloc: Global,
        part: &Block,
        from: usize,
        to: usize,
    ) -> Result<(), AllocError>
        requires ordered { from ≤ to }
        requires within { to ≤ length part.now }
        ensures { OnOk result (self.new ≡ self.old ++ slice_range part.now from to) }
    {
        if self.len() == 0 && from == 0 && to == part.len() {
            *self = part.duplicate(alloc)?;
            return Ok(());
        }
        self.append_each(part, from, to)
    }

    /// The same, statement by statement.
    fn append_each(&mut self, part: &Block, from: usize, to: usize) -> Result<(), AllocError>
        requires ordered { from ≤ to }
        requires within { to ≤ length part.now }
        ensures { OnOk result (self.new ≡ self.old ++ slice_range part.now from to) }
    {
        for s in &part.held.list()[from..to] {
            self.share(s)?;
        }
        Ok(())
    }

    /// A block of one statement.
    pub fn single(alloc: Global, s: Stmt) -> Result<Block, AllocError>
        ensures { IfOk result (λ b. b ≡ statement s ∷ []) }
    {
        let mut made = Block::new(alloc);
        made.push(s)?;
        Ok(made)
    }

    /// Moves the statements of `more` to the end.
    #[tactic(auto, using(crate::proofs::Trees::whole_range))]
    pub fn append(&mut self, more: Block) -> Result<(), AllocError>
        ensures { OnOk result (self.new ≡ self.old ++ more) }
    {
        let alloc = *more.held.list().allocator();
        self.append_part(alloc, &more, 0, more.len())
    }

    /// A block of copies of the `count` statements from `from` on.
    pub fn piece(&self, alloc: Global, from: usize, count: usize) -> Result<Block, AllocError>
        requires { from + count ≤ length self.now }
        ensures { IfOk result (λ b. b ≡ slice_range self.now from (from + count)) }
    {
        let _length = self.len();
        let mut made = Block::new(alloc);
        made.append_part(alloc, self, from, from + count)?;
        Ok(made)
    }

    /// The same statements, in one list that both blocks have from then on.
    pub fn duplicate(&self, _alloc: Global) -> Result<Block, AllocError>
        ensures { IfOk result (λ b. b ≡ self.now) }
    {
        Ok(Block {
            held: self.held.shared()?,
        })
    }
}
