//! What a call passes, as an access.
ghost use Rattle.std.specs.Prelude.{◌≡◌, ◌≤◌, ◌+◌, [], ◌∷◌, length, map, slice_range, IfOk};
ghost use Rattle.exo_tree.specs.Tree.{block};
ghost use Rattle.exo_tree.specs.Calls.{call_arguments};
ghost use Rattle.exo_tree.specs.PlainArgument.{argument};
ghost use Rattle.exo_tree.specs.PlainProcedure.{procedure};
ghost use Rattle.exo_tree.specs.PlainUnit.{program};
ghost use Rattle.exo_meaning.specs.Modes.{Writing};
ghost use Rattle.text_show.specs.Seen.{words_in};
ghost use Rattle.text_show.specs.StatementText.{argument_text};
ghost use Rattle.exo_effects.specs.Uses.{uses_of, part_of_argument, argument_at};
ghost use Rattle.exo_effects.specs.PlainParts.{parts_in};
ghost use Rattle.exo_effects.specs.PlainUses.{plain_uses};

use crate::access::{Access, Mode};
use crate::inside::Inside;
use crate::parts::Parts;
use crate::piece::{PieceStart, find};
use exo_tree::{Arg, Path, Proc, Stmt, Unit};
use std::alloc::{AllocError, Global};
use text_show::{Words, put_argument};

/// What the statement at a spot passes, where it is a call.
fn passed_at<'a>(spot: PieceStart<'a>) -> &'a [Arg]
    requires { spot.from + 1 ≤ length spot.block.now }
    ensures { map argument result.now ≡ call_arguments (block (slice_range spot.entry.block.now spot.entry.from (spot.entry.from + 1))) }
{
    match spot.block.statement(spot.from) {
        Stmt::Call(_, args) => args.as_slice(),
        _ => &[],
    }
}

/// The whole of what an argument passes, as if it were written; none where that is no buffer.
fn whole_argument<'a>(
    alloc: Global,
    words: &Words<'_>,
    parts: Parts,
    a: &Arg,
) -> Result<Vec<Access<'a>>, AllocError>
    ensures { IfOk result
        (λ l. plain_uses l.items
        ≡ uses_of (record { parts = parts_in parts; own = []; round = [] })
        (argument_text (words_in words.now) (argument a.now))
        (part_of_argument (parts_in parts) (argument a.now)) (Writing ∷ [])) }
{
    let mut out = Vec::new(alloc);
    let Some(part) = parts.argument(alloc, a)? else {
        return Ok(out);
    };
    let mut text = String::new(alloc);
    put_argument(&mut text, words, a)?;
    let inside = Inside {
        parts,
        guards: Vec::new(alloc),
    };
    inside.put(alloc, &mut out, part, Mode::Write, text)?;
    Ok(out)
}

/// The whole of the argument of that number of the call at a path, as if it were written and nothing were around it.
/// None where there is no such argument, or where it is no buffer.
pub fn argument<'a>(
    alloc: Global,
    unit: &'a Unit,
    p: &'a Proc,
    path: &Path,
    k: u32,
) -> Result<Vec<Access<'a>>, AllocError>
    ensures { IfOk result (λ l. plain_uses l.items ≡ argument_at (program unit.now) (procedure p.now) path.now k) }
{
    let mut parts = Parts::new(alloc);
    parts.insert_params(alloc, &p.params)?;
    let Some(spot) = find(alloc, &mut parts, &p.body, path, 1)? else {
        return Ok(Vec::new(alloc));
    };
    let Some(a) = passed_at(spot).get(k as usize) else {
        return Ok(Vec::new(alloc));
    };
    let words = Words::new(alloc, unit, p)?;
    whole_argument(alloc, &words, parts, a)
}
