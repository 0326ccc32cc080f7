//! What a binder is called in C.
ghost use Rattle.std.specs.Prelude.{◌≡◌, ◌+◌, ◌++◌, suc, length, codes, decimal, IfOk};
ghost use Rattle.c_tree.specs.Names.Words as words;
ghost use Rattle.c_tree.specs.Names.Names as names;

use crate::names::globals::Globals;
use crate::names::words::{is_own, is_same, is_word};
use exo_tree::Name;
use std::alloc::{AllocError, Global};

/// Whether the name is one of the list.
pub fn is_in(names: &[Name], x: &str) -> bool
    ensures { result ≡ words.is_in names.now x.now }
{
    for name in names {
        if is_same(name.as_str(), x) {
            return true;
        }
    }
    false
}

/// Whether no binder may have the name, by the names of functions and fields.
fn is_reserved(globals: &Globals<'_>, x: &str) -> bool
    ensures { result ≡ names.is_reserved globals.now x.now }
{
    is_word(x) || globals.has(x)
}

/// Whether a binder is not renamed to it.
fn is_taken(globals: &Globals<'_>, binders: &[Name], x: &str) -> bool
    ensures { result ≡ names.is_taken globals.now binders.now x.now }
{
    is_reserved(globals, x) || is_in(binders, x)
}

/// Whether the name begins with `_` or `exo_` once a number is put behind it: so does `exo`.
fn is_own_stem(alloc: Global, x: &str) -> Result<bool, AllocError>
    ensures { IfOk result (λ own. own ≡ words.is_own (x.now ++ codes "_")) }
{
    let stem = format!(in alloc; "{x}_")?;
    Ok(is_own(stem.as_str()))
}

/// Such a name, with a number.
fn own_numbered(alloc: Global, x: &str, k: usize) -> Result<Name, AllocError>
    ensures { IfOk result (λ n. n ≡ codes "v" ++ x.now ++ codes "_" ++ decimal k ++ codes "_") }
{
    let text = format!(in alloc; "v{x}_{k}_")?;
    Ok(Name::new(alloc, text.as_str())?)
}

/// The name with a number.
fn numbered(alloc: Global, x: &str, k: usize) -> Result<Name, AllocError>
    ensures { IfOk result (λ n. n ≡ names.numbered x.now k) }
{
    let own = is_own_stem(alloc, x)?;
    if own {
        return own_numbered(alloc, x, k);
    }
    Name::numbered(alloc, x, k)
}

/// The name with the least number from 1 on that is not taken.
fn renamed(
    alloc: Global,
    globals: &Globals<'_>,
    binders: &[Name],
    x: &str,
) -> Result<Name, AllocError>
    ensures { IfOk result
        (λ n. n
        ≡ names.numbered x.now
        (names.first_free (names.is_taken globals.now binders.now) x.now
        (suc (length globals.now + length binders.now)) 1)) }
{
    let count = globals.names().len() + binders.len() + 1;
    for k in 0..count {
        let name = numbered(alloc, x, k + 1)?;
        if !is_taken(globals, binders, name.as_str()) {
            return Ok(name);
        }
    }
    numbered(alloc, x, count + 1)
}

/// What a binder with the name `x` is called in a procedure whose binders have the names `binders`, beside functions and
/// fields with the names `globals`: the name itself where it is not reserved, else `x_k`, or `vx_k_` where it begins with `_` or
/// `exo_` or is `exo`, with the least number k from 1 on for which that is neither reserved nor a binder's name.
pub fn c_name(
    alloc: Global,
    globals: &Globals<'_>,
    binders: &[Name],
    x: &Name,
) -> Result<Name, AllocError>
    ensures { IfOk result (λ n. n ≡ names.c_name globals.now binders.now x.now) }
{
    if is_reserved(globals, x.as_str()) {
        return renamed(alloc, globals, binders, x.as_str());
    }
    x.duplicate(alloc)
}
