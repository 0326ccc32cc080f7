// Messages on words and files, each a line.
ghost use Rattle.std.specs.Prelude.{◌≡◌, string_bytes, IfOk, codes};
ghost use Rattle.exo_cli.specs.Messages.{usage, cannot_read, file_refused};

use compile_stages::messages::refused;
use std::alloc::{AllocError, Global};

/// How the program is called.
pub(crate) fn usage(alloc: Global) -> Result<String, AllocError>
    ensures { IfOk result (λ text. string_bytes text ≡ usage) }
{
    String::from_str(
        alloc,
        "exoc: usage: exoc compile PROCS SCHEDULE | check PROCS | show PROCS SCHEDULE NAME | gen N\n",
    )
}

/// The file of this name was not read.
pub(crate) fn cannot_read(alloc: Global, name: &str) -> Result<String, AllocError>
    ensures { IfOk result (λ text. string_bytes text ≡ cannot_read name.now) }
{
    format!(in alloc; "exoc: cannot read {name}\n")
}

/// The file of this name is too long.
pub(crate) fn too_long(alloc: Global, name: &str) -> Result<String, AllocError>
    ensures { IfOk result (λ text. string_bytes text ≡ file_refused name.now (codes "FileTooLong")) }
{
    refused(alloc, name, "FileTooLong")
}
