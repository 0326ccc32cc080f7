//! The buffers of names.
ghost use Rattle.std.specs.Prelude.{◌≡◌, take, length, OnOk};
ghost use Rattle.exo_tree.specs.PlainArgument.{argument};
ghost use Rattle.exo_meaning.specs.Run.{is_root};
ghost use Rattle.exo_meaning.specs.Scene.{updated};
ghost use Rattle.exo_modes.specs.Aliases.{roots_in, same_buffer};

use exo_tree::Arg;
use std::alloc::AllocError;

/// A name and the buffer that it stands for.
#[derive(Clone, Copy)]
pub struct Alias {
    pub name: u32,
    pub root: u32,
}

/// The buffer of a name: that of its last alias, or the name itself.
pub fn root(aliases: &[Alias], name: u32) -> u32
    ensures { result ≡ roots_in aliases.now name }
{
    let mut root = name;
    for alias in aliases {
        if name == alias.name {
            root = alias.root;
        }
    }
    root
}

/// Whether an argument is buffer `y` or part of it.
pub fn is_part(aliases: &[Alias], y: u32, a: &Arg) -> bool
    ensures { result ≡ is_root (roots_in aliases.now) y (argument a.now) }
{
    match a {
        Arg::Whole(x) => y == root(aliases, x.0),
        Arg::Window(x, _) => y == root(aliases, x.0),
        _ => false,
    }
}

/// Whether both are parts of one buffer, by the buffers that they are parts of.
pub fn same_buffer(one: Option<u32>, other: Option<u32>) -> bool
    ensures { result ≡ same_buffer one other }
{
    match (one, other) {
        (Some(x), Some(y)) => x == y,
        _ => false,
    }
}

/// Lets a name stand for a buffer from now on.
pub fn set_root(aliases: &mut Vec<Alias>, name: u32, buffer: u32) -> Result<(), AllocError>
    ensures set { OnOk result (roots_in aliases.new.items ≡ updated (roots_in aliases.old.items) name buffer) }
    ensures kept { OnOk result (take (length aliases.old.items) aliases.new.items ≡ aliases.old.items) }
{
    if root(aliases, name) == buffer {
        return Ok(());
    }
    aliases.push(Alias { name, root: buffer })?;
    Ok(())
}
