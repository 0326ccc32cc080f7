//! What is put in the place of a piece, and the procedure that comes of it.
ghost use Rattle.std.specs.Prelude.{◌≡◌, option_map, Some, IfOk};
ghost use Rattle.exo_tree.specs.Tree.{block};
ghost use Rattle.exo_tree.specs.Context.{fill};
ghost use Rattle.exo_tree.specs.PlainProcedure.{procedure};
ghost use Rattle.exo_tree.specs.Places.{opened};
ghost use Rattle.tree_edits.specs.Made.Names as names;
ghost use Rattle.tree_edits.specs.Made.Passes as trees;
ghost use Rattle.tree_edits.specs.Made.Passes.{is_alone};
ghost use Rattle.step_driver.specs.Spots.{or_nothing};

use crate::target::{Piece, Target};
use exo_tree::{Block, Name, Proc};
use std::alloc::{AllocError, Global};
use tree_edits::made::{named_copies, or_pass};
use tree_edits::replaced;

/// What is put in the place of a piece that is there: a `pass` where nothing would stand in its
/// block.
#[tactic(auto, using(crate::proofs::Placed::alone_there))]
pub(crate) fn passed(
    on: &Target<'_>,
    piece: &Piece,
    alone: bool,
    made: Block,
) -> Result<Block, AllocError>
    requires { option_map (λ o. is_alone o.around)
        (opened piece.now.count piece.now.path (block on.now.proc.now.body))
        ≡ Some alone }
    ensures { IfOk result (λ b. block b ≡ trees.or_pass
        (or_nothing (opened piece.now.count piece.now.path (block on.now.proc.now.body))).around
        (block made)) }
{
    let mut whole = made;
    or_pass(&mut whole, alone)?;
    Ok(whole)
}

/// The body of a procedure with others in the place of a piece that is there.
#[tactic(auto, using(crate::proofs::Placed::filled_there, crate::proofs::Placed::never_missing))]
pub(crate) fn placed(
    alloc: Global,
    p: &Proc,
    piece: &Piece,
    alone: bool,
    made: &Block,
) -> Result<Block, AllocError>
    requires { option_map (λ o. is_alone o.around)
        (opened piece.now.count piece.now.path (block p.now.body))
        ≡ Some alone }
    ensures { IfOk result (λ b. block b ≡ fill
        (or_nothing (opened piece.now.count piece.now.path (block p.now.body))).around
        (block made.now)) }
{
    match replaced(alloc, &p.body, &piece.path, piece.count, made)? {
        Some(body) => Ok(body),
        None => made.piece(alloc, 0, 0),
    }
}

/// A procedure under another name and with another body, in which binders with ids from `copies` on
/// are those of copies.
pub(crate) fn version(
    alloc: Global,
    p: &Proc,
    name: Name,
    copies: u32,
    body: &Block,
) -> Result<Proc, AllocError>
    ensures { IfOk result (λ q. procedure q
        ≡ record (procedure p.now) {
          name = name;
          body = names.named_copies (procedure p.now) copies (block body.now);
        }) }
{
    let body = named_copies(alloc, p, copies, body)?;
    with_body(alloc, p, name, body)
}

/// A procedure under another name and with another body.
fn with_body(alloc: Global, p: &Proc, name: Name, body: Block) -> Result<Proc, AllocError>
    ensures { IfOk result
        (λ q. procedure q ≡ record (procedure p.now) { name = name; body = block body }) }
{
    let mut version = p.with_body(alloc, body)?;
    version.name = name;
    Ok(version)
}
