//! Templates of instructions.
ghost use Rattle.std.specs.Prelude.{◌≡◌, ◌+◌, ◌<◌, List, IfSome, length, map};
ghost use Rattle.std.specs.List.{list_any};
ghost use Rattle.exo_tree.specs.Tree.{Param};
ghost use Rattle.exo_meaning.specs.Units as units;
ghost use Rattle.exo_reader.specs.Views.{plain_form, plain_parameter};
ghost use Rattle.exo_types.specs.HoleRules.{is_control, is_written_hole, HaveHoles, IsBegun, fits_from};

use crate::types::kind_named;
use exo_modes::{is_data_of, is_same};
use exo_reader::source::{SourceParam, SourceType};

/// Where the reading of a template stands.
#[derive(Clone, Copy, PartialEq, Eq)]
pub enum Reading {
    /// In plain text.
    Plain,
    /// Behind an opening brace.
    Opened,
    /// Behind a closing brace.
    Closed,
    /// In a hole that began there.
    InHole(usize),
}

/// Whether a type is one of control values.
fn is_control(form: &SourceType) -> bool
    ensures { result ≡ is_control (plain_form form.now) }
{
    match form {
        SourceType::Plain(kind, dims) => dims.is_empty() && kind_named(kind).is_some(),
        SourceType::Window(_, _) => false,
    }
}

/// Whether a hole is that of a parameter: `{n}` of a control value, `{x_data}` of a buffer.
fn is_hole_of(text: &[u8], param: &SourceParam) -> bool
    ensures { result ≡ is_written_hole text.now (plain_parameter param.now) }
{
    let name = param.name.as_slice();
    if is_control(&param.form) {
        return is_same(text, name);
    }
    is_data_of(text, name)
}

/// Whether a hole names a parameter.
fn is_hole(text: &[u8], params: &[SourceParam]) -> bool
    ensures { result ≡ list_any (is_written_hole text.now) (map plain_parameter params.now) }
{
    for param in params {
        if is_hole_of(text, param) {
            return true;
        }
    }
    false
}

/// Where the reading stands behind byte `k`; None where no template goes on so.
fn step(template: &[u8], k: usize, reading: Reading, params: &[SourceParam]) -> Option<Reading>
    requires inside { k < length template.now }
    requires begun { IsBegun k reading }
    ensures begun { IfSome result (λ r. IsBegun (k + 1) r) }
    ensures fits { (ps : List Param)
        → HaveHoles ps (map plain_parameter params.now)
        → fits_from ps template.now k (Some reading) ≡ fits_from ps template.now (k + 1) result }
{
    let byte = template[k];
    match reading {
        Reading::Plain => match byte {
            b'{' => Some(Reading::Opened),
            b'}' => Some(Reading::Closed),
            _ => Some(Reading::Plain),
        },
        Reading::Opened => match byte {
            b'{' => Some(Reading::Plain),
            b'}' => None,
            _ => Some(Reading::InHole(k)),
        },
        Reading::Closed => match byte {
            b'}' => Some(Reading::Plain),
            _ => None,
        },
        Reading::InHole(from) => {
            if byte != b'}' {
                return Some(reading);
            }
            if is_hole(&template[from..k], params) {
                return Some(Reading::Plain);
            }
            None
        }
    }
}

/// Whether each brace of a template is doubled, or one of a hole that names a parameter.
pub fn is_template(template: &[u8], params: &[SourceParam]) -> bool
    ensures { (ps : List Param) → HaveHoles ps (map plain_parameter params.now) → result ≡ units.is_template ps (Some template.now) }
{
    let mut reading = Reading::Plain;
    for k in 0..template.len() {
        let Some(next) = step(template, k, reading, params) else {
            return false;
        };
        reading = next;
    }
    reading == Reading::Plain
}
