//! What the words of a line name in a unit.
ghost use Rattle.std.specs.Prelude.{◌≡◌, ◌&&◌, option_map};
ghost use Rattle.exo_tree.specs.PlainUnit.{program};
ghost use Rattle.exo_meaning.specs.Units.{IsUnit, is_text};
ghost use Rattle.rules_names.specs.Names.{field_in, memory_in};
ghost use Rattle.rules_names.specs.Tables.{found_field};

use exo_tree::{Field, FieldId, Kind, MemId, Name, Unit};
use text_lexer::text::Text;

/// Whether the name is spelled so.
fn is_spelled(name: &Name, bytes: &[u8]) -> bool
    ensures { result ≡ is_text name.now bytes.now }
{
    name.as_str().as_bytes() == bytes
}

/// The memory of that name; None exactly where there is none.
pub(crate) fn memory_in(unit: &Unit, name: &Text) -> Option<MemId>
    requires { IsUnit (program unit.now) }
    ensures { option_map (λ m. m.0) result ≡ memory_in (program unit.now).memories name.now }
{
    let memories = unit.memories.as_slice();
    for k in 0..memories.len() {
        if is_spelled(&memories[k].name, name.as_slice()) {
            return Some(MemId(k as u32));
        }
    }
    None
}

/// Whether the field has these names.
fn is_field(f: &Field, config: &[u8], name: &[u8]) -> bool
    ensures { result ≡ (is_text f.now.config config.now && is_text f.now.name name.now) }
{
    is_spelled(&f.config, config) && is_spelled(&f.name, name)
}

/// The field of these names, and its kind; None exactly where there is none.
pub(crate) fn field_in(unit: &Unit, config: &Text, name: &Name) -> Option<(FieldId, Kind)>
    requires { IsUnit (program unit.now) }
    ensures { option_map found_field result
        ≡ field_in (program unit.now).fields config.now name.now }
{
    let fields = unit.fields.as_slice();
    for k in 0..fields.len() {
        if is_field(&fields[k], config.as_slice(), name.as_str().as_bytes()) {
            return Some((FieldId(k as u32), fields[k].kind));
        }
    }
    None
}
