//! Which name of a function or a field C cannot keep.
ghost use Rattle.std.specs.Prelude.{◌≡◌, ◌||◌, IfOk};
ghost use Rattle.std.specs.Option.{option_copied};
ghost use Rattle.c_tree.specs.Names.Clash as clash;
ghost use Rattle.c_tree.specs.Names.Held.{names_in};
ghost use Rattle.c_tree.specs.Names.Words.{is_word};

use crate::names::set::NameSet;
use crate::names::words::is_word;
use exo_tree::Name;
use std::alloc::{AllocError, Global};

/// Whether a name is a word, or one of those behind it.
fn is_clash(later: &NameSet<'_>, name: &Name) -> bool
    ensures { result ≡ (is_word name.now || names_in later.now name.now) }
{
    is_word(name.as_str()) || later.has(name.as_str())
}

/// The name where it clashes, else what was found behind it.
fn clashing<'a>(clashes: bool, name: &'a Name, found: Option<&'a Name>) -> Option<&'a Name>
    ensures { option_copied result ≡ clash.clashing clashes name.now (option_copied found.entry) }
{
    if clashes { Some(name) } else { found }
}

/// Of the names of all functions and then of all fields, the first that is a word of C or of the text, or that stands in the
/// list a second time.
pub fn first_clash(alloc: Global, globals: &[Name]) -> Result<Option<&Name>, AllocError>
    ensures { IfOk result (λ o. option_copied o ≡ clash.first_clash globals.now) }
{
    let mut later = NameSet::new(alloc);
    let mut found = None;
    let mut k = globals.len();
    while k > 0 {
        k -= 1;
        let name = &globals[k];
        found = clashing(is_clash(&later, name), name, found);
        later.insert(name.as_str())?;
    }
    Ok(found)
}
