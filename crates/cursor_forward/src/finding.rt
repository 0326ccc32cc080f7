//! The statements that a pattern finds.
ghost use Rattle.std.specs.Prelude.{◌≡◌, true, ◌-◌, ◌+◌, ◌<◌, ◌≤◌, length, map, option_map};
ghost use Rattle.std.specs.Prelude.{option_and_then, slice_get, IsNone};
ghost use Rattle.std.specs.Option.{option_copied};
ghost use Rattle.std.specs.Str.{bytes_eq};
ghost use Rattle.exo_tree.specs.Heights.{height, height_below};
ghost use Rattle.exo_tree.specs.Plain.{binding, statement, procedure, program};
ghost use Rattle.exo_tree.specs.PlainPlace.{branch_taken, step_taken};
ghost use Rattle.exo_tree.specs.Tree.{block};
ghost use Rattle.cursor_forward.specs.Search.PlainPattern.{plain_pattern};
ghost use Rattle.cursor_forward.specs.Patterns.{find_of, found_after, is_called, is_meant};
ghost use Rattle.cursor_forward.specs.Patterns.{is_number, is_loop_called, is_one_loop};
ghost use Rattle.cursor_forward.specs.Patterns.{is_procedure_called, is_field_called, matches};
ghost use Rattle.cursor_forward.specs.Patterns.{matching, matching_at, matching_below, are_short};
ghost use Rattle.cursor_forward.specs.Patterns.{is_short_below, IsSearchable, meant_after, name_in};
ghost use Rattle.cursor_forward.specs.Patterns.{parameter_called};
ghost use Rattle.cursor_forward.specs.PlainCursor.{plain_cursor};

use crate::cursor::Cursor;
use crate::search::Pattern;
use exo_tree::{Block, Branch, FieldId, Id, Name, Params, Path, ProcId, Step, Stmt, Unit};

/// Whether a name is the one that is asked for.
fn is_called(asked: &Option<Name>, name: &Name) -> bool
    ensures { result ≡ is_called asked.now name.now }
{
    match asked {
        None => true,
        Some(x) => name.as_str().as_bytes() == x.as_str().as_bytes(),
    }
}

/// The number that a name stands for behind a statement, by what it stood for before.
fn meant_after(x: &Name, found: Option<u32>, s: &Stmt) -> Option<u32>
    ensures { result ≡ meant_after x.now found (statement s.now) }
{
    match s {
        Stmt::Alloc(y, _, _, _) | Stmt::View(y, _, _) => if y.name.as_str().as_bytes()
            == x.as_str().as_bytes()
        {
            Some(y.id.0)
        } else {
            found
        },
        _ => found,
    }
}

/// The number of the first parameter of a name.
fn parameter_called(x: &Name, params: &Params) -> Option<u32>
    ensures { result ≡ parameter_called x.now params.now }
{
    for p in params.as_slice() {
        if p.binder.name.as_str().as_bytes() == x.as_str().as_bytes() {
            return Some(p.binder.id.0);
        }
    }
    None
}

/// Whether this is a buffer or view that is asked for: any, or the one of the number that was
/// found.
fn is_meant(asked: &Option<Name>, found: Option<u32>, y: Id) -> bool
    ensures { result ≡ is_meant asked.now found y.0 }
{
    match (asked, found) {
        (None, _) => true,
        (Some(_), None) => false,
        (Some(_), Some(x)) => y.0 == x,
    }
}

/// Whether the statement is a loop over the index that is asked for.
fn is_loop_called(asked: &Option<Name>, s: Option<&Stmt>) -> bool
    ensures { result ≡ is_loop_called asked.now (option_map statement (option_copied s.entry)) }
{
    match s {
        Some(Stmt::For(j, _, _, _)) => is_called(asked, &j.name),
        _ => false,
    }
}

/// Whether the block is one loop over that index and nothing else.
#[tactic(auto, using(crate::proofs::Lasts::one_loop))]
fn is_one_loop(asked: &Option<Name>, b: &Block) -> bool
    ensures { result ≡ is_one_loop asked.now (block b.now) }
{
    b.len() == 1 && is_loop_called(asked, b.get(0))
}

/// Whether the procedure has the name that is asked for.
fn is_procedure_called(asked: &Option<Name>, unit: &Unit, k: ProcId) -> bool
    ensures { result ≡ is_procedure_called asked.now (slice_get (program unit.now).procedures k.0) }
{
    match unit.procs.get(k.0 as usize) {
        None => false,
        Some(p) => is_called(asked, &p.name),
    }
}

/// Whether the field and its configuration have the names that are asked for.
fn is_field_called(c: &Option<Name>, f: &Option<Name>, unit: &Unit, k: FieldId) -> bool
    ensures { result ≡ is_field_called c.now f.now (slice_get (program unit.now).fields k.0) }
{
    match unit.fields.get(k.0 as usize) {
        None => false,
        Some(field) => is_called(c, &field.config) && is_called(f, &field.name),
    }
}

/// Whether the statement itself is one of the pattern, where that number is what the pattern's name
/// stands for.
fn matches(unit: &Unit, pattern: &Pattern, found: Option<u32>, s: &Stmt) -> bool
    ensures { result ≡ matches (program unit.now) (plain_pattern pattern.now) found
        (statement s.now) }
{
    match (pattern, s) {
        (Pattern::Loop(i), Stmt::For(j, _, _, _)) => is_called(i, &j.name),
        (Pattern::Nest(i, k), Stmt::For(j, _, _, b)) => is_called(i, &j.name) && is_one_loop(k, b),
        (Pattern::Alloc(x), Stmt::Alloc(y, _, _, _)) => is_called(x, &y.name),
        (Pattern::Assign(x), Stmt::Assign(y, _, _)) => is_meant(x, found, *y),
        (Pattern::Assign(x), Stmt::View(y, _, _)) => is_called(x, &y.name),
        (Pattern::Reduce(x), Stmt::Reduce(y, _, _)) => is_meant(x, found, *y),
        (Pattern::If, Stmt::If(_, _, _)) => true,
        (Pattern::Call(f), Stmt::Call(k, _)) => is_procedure_called(f, unit, *k),
        (Pattern::Pass, Stmt::Pass) => true,
        (Pattern::Config(c, f), Stmt::Config(k, _)) => is_field_called(c, f, unit, *k),
        _ => false,
    }
}

/// The name of a buffer or view that the pattern speaks of.
fn name_in(pattern: &Pattern) -> Option<&Name>
    ensures { option_copied result ≡ name_in (plain_pattern pattern.now) }
{
    match pattern {
        Pattern::Assign(x) | Pattern::Reduce(x) => x.as_ref(),
        _ => None,
    }
}

/// The number that the pattern's name stands for behind a statement, by what it stood for before.
fn found_after(pattern: &Pattern, found: Option<u32>, s: &Stmt) -> Option<u32>
    ensures { result ≡ found_after (plain_pattern pattern.now) found (statement s.now) }
{
    match name_in(pattern) {
        None => found,
        Some(x) => meant_after(x, found, s),
    }
}

/// The path of the match of that number in a block, whose statements stand in that branch below a
/// path. `left` counts the matches down that are passed, and `first` is what the pattern's name
/// stands for as the block begins.
#[cycle(find)]
fn find_in(
    unit: &Unit,
    pattern: &Pattern,
    outer: &Path,
    branch: Branch,
    first: Option<u32>,
    b: &Block,
    left: &mut u32,
) -> Option<Path>
    requires fits { length outer.now + height (block b.now) ≤ 32 }
    requires short { are_short (block b.now) ≡ true }
    ensures found { result ≡ slice_get
        (matching (program unit.now) (plain_pattern pattern.now) outer.now (branch_taken branch) 0
        first (block b.now)) left.old }
    ensures passed { IsNone result
        → left.new
        ≡ left.old
        - length (matching (program unit.now) (plain_pattern pattern.now) outer.now
        (branch_taken branch) 0 first (block b.now)) }
{
    let mut found = first;
    for k in 0..b.len() {
        let s = b.statement(k);
        let mut path = outer.duplicate();
        path.push(Step {
            branch,
            index: k as u32,
        });
        if let Some(path) = find_at(unit, pattern, path, found, s, left) {
            return Some(path);
        }
        found = found_after(pattern, found, s);
    }
    None
}

/// The same of one statement with all below it.
#[cycle(find)]
fn find_at(
    unit: &Unit,
    pattern: &Pattern,
    path: Path,
    found: Option<u32>,
    s: &Stmt,
    left: &mut u32,
) -> Option<Path>
    requires fits { length path + height_below (statement s.now) ≤ 32 }
    requires short { is_short_below (statement s.now) ≡ true }
    ensures found { result ≡ slice_get
        (matching_at (program unit.now) (plain_pattern pattern.now) path found (statement s.now))
        left.old }
    ensures passed { IsNone result
        → left.new
        ≡ left.old
        - length
        (matching_at (program unit.now) (plain_pattern pattern.now) path found (statement s.now)) }
{
    if matches(unit, pattern, found, s) {
        if *left == 0 {
            return Some(path);
        }
        *left -= 1;
    }
    find_below(unit, pattern, &path, found, s, left)
}

/// The same of what is below a statement.
#[cycle(find)]
fn find_below(
    unit: &Unit,
    pattern: &Pattern,
    path: &Path,
    found: Option<u32>,
    s: &Stmt,
    left: &mut u32,
) -> Option<Path>
    requires fits { length path.now + height_below (statement s.now) ≤ 32 }
    requires short { is_short_below (statement s.now) ≡ true }
    ensures found { result ≡ slice_get
        (matching_below (program unit.now) (plain_pattern pattern.now) path.now found
        (statement s.now)) left.old }
    ensures passed { IsNone result
        → left.new
        ≡ left.old
        - length (matching_below (program unit.now) (plain_pattern pattern.now) path.now found
        (statement s.now)) }
{
    match s {
        Stmt::If(_, a, b) => match find_in(unit, pattern, path, Branch::Main, found, a, left) {
            None => find_in(unit, pattern, path, Branch::Else, found, b, left),
            first => first,
        },
        Stmt::For(_, _, _, b) => find_in(unit, pattern, path, Branch::Main, found, b, left),
        _ => None,
    }
}

/// The match of that number in a procedure of the unit, in preorder and counted from 0; None
/// exactly where it has not so many.
pub fn find(unit: &Unit, p: ProcId, pattern: &Pattern, nth: u32) -> Option<Cursor>
    requires { IsSearchable (slice_get (program unit.now).procedures p.0) }
    ensures { option_map plain_cursor result
        ≡ find_of (program unit.now) p.0 (plain_pattern pattern.now) nth }
{
    let p = unit.procs.get(p.0 as usize)?;
    let found = match name_in(pattern) {
        None => None,
        Some(x) => parameter_called(x, &p.params),
    };
    let mut left = nth;
    let top = Path::new();
    let path = find_in(unit, pattern, &top, Branch::Main, found, &p.body, &mut left)?;
    Some(Cursor::Node(path))
}
