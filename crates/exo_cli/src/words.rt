// The words of the command line.
ghost use Rattle.std.specs.Prelude.{◌≡◌, ◌&&◌, if◌then◌else◌, Some, None, option_map, codes};
ghost use Rattle.std.specs.Str.{bytes_eq};
ghost use Rattle.exo_cli.specs.Words as plainly;
ghost use Rattle.exo_cli.specs.Words.{command_of, is_operand, short_of, texts};
ghost use Rattle.exo_cli.specs.Asked.{plain};

use compile_stages::samples::number_of;

/// What the program is asked to do; its operands are names of files, the last of `show` that of a
/// version, and that of `gen` a number.
#[derive(Clone, Copy)]
pub(crate) enum Command<'a> {
    /// Compile the procedures of the first file by the schedule of the second.
    Compile(&'a str, &'a str),
    /// Check the procedures of the file.
    Check(&'a str),
    /// Show the version that the name holds behind the schedule of the second file on the
    /// procedures of the first.
    Show(&'a str, &'a str, &'a str),
    /// Compile the texts of the number, and say what they come to.
    Gen(u32),
}

/// The command of three words.
fn short_of<'a>(word: &str, operand: &'a str) -> Option<Command<'a>>
    ensures { option_map plain result ≡ short_of word.now operand.now }
{
    if word == "check" && is_operand(operand) {
        return Some(Command::Check(operand));
    }
    if word == "gen" {
        return Some(Command::Gen(number_of(operand)?));
    }
    None
}

/// The command of four words.
fn compile_of<'a>(word: &str, procs: &'a str, schedule: &'a str) -> Option<Command<'a>>
    ensures { option_map plain result
        ≡ (if bytes_eq word.now (codes "compile") && is_operand procs.now && is_operand schedule.now
        then Some (plainly.Compile procs.now schedule.now)
        else None) }
{
    if word == "compile" && is_operand(procs) && is_operand(schedule) {
        return Some(Command::Compile(procs, schedule));
    }
    None
}

/// The command of five words.
fn show_of<'a>(word: &str, procs: &'a str, schedule: &'a str, name: &'a str) -> Option<Command<'a>>
    ensures { option_map plain result
        ≡ (if bytes_eq word.now (codes "show")
        && is_operand procs.now
        && is_operand schedule.now
        && is_operand name.now
        then Some (plainly.Show procs.now schedule.now name.now)
        else None) }
{
    if word == "show" && is_operand(procs) && is_operand(schedule) && is_operand(name) {
        return Some(Command::Show(procs, schedule, name));
    }
    None
}

/// The command of the words, the first of which is the program's name.
pub(crate) fn read_command(words: &[String]) -> Option<Command<'_>>
    ensures { option_map plain result ≡ command_of (texts words.now) }
{
    let [_, word, first, more @ ..] = words else {
        return None;
    };
    match more {
        [] => short_of(word.as_str(), first.as_str()),
        [schedule] => compile_of(word.as_str(), first.as_str(), schedule.as_str()),
        [schedule, name] => show_of(
            word.as_str(),
            first.as_str(),
            schedule.as_str(),
            name.as_str(),
        ),
        _ => None,
    }
}

/// Whether a word can be an operand: it is not empty and does not begin with a hyphen.
fn is_operand(word: &str) -> bool
    ensures { result ≡ is_operand word.now }
{
    match word.as_bytes() {
        [first, ..] => *first != b'-',
        [] => false,
    }
}
