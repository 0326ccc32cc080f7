// The same text with a change at each of its bytes in turn, and what comes of each.
//
// A row is the name of a change and then, for each byte from the first one of a line on, what comes
// of the change at that byte; of a cut also for the end. Answers are separated by blanks and
// written as `change::Answer` says; `.` is what is wanted of the case itself. `12*S` is the answer
// `S` at twelve bytes in a row; `/` ends a line of the text, and counts for nothing.
use crate::case::{Case, Wanted};
use crate::change::{Answer, Change, Refused, Run, Spot};
use crate::run::has_left;
use std::alloc::{AllocError, Global};
use std::thread::Threads;

/// The message of a refusal of a file.
fn message_of(alloc: Global, file: &str, refused: Refused) -> Result<String, AllocError> {
    let line = refused.line;
    let column = refused.column;
    let kind = refused.kind;
    format!(in alloc; "exoc: {file}:{line}:{column}: {kind}\n")
}

/// Adds to the report where a change was.
fn push_place(alloc: Global, spot: Spot, report: &mut String) -> Result<(), AllocError> {
    let line = spot.line;
    let column = spot.column;
    report.push_str(&format!(in alloc; " at {line}:{column}")?)
}

/// A case whose first file is changed.
#[derive(Drop)]
pub struct Sweep<'a> {
    case: &'a Case,
    file: &'a str,
    text: &'a [u8],
    /// What is wanted of the case itself.
    unchanged: Wanted,
}

impl<'a> Sweep<'a> {
    pub fn new(case: &'a Case) -> Result<Sweep<'a>, AllocError> {
        let unchanged = case.wanted()?;
        let (file, text) = match case.parts.first() {
            Some(part) => (part.heading.as_str(), part.text.bytes()),
            None => ("", [].as_slice()),
        };
        Ok(Sweep {
            case,
            file,
            text,
            unchanged,
        })
    }

    /// The message that an answer stands for; empty where the case has no part of that name.
    fn message(
        &self,
        alloc: Global,
        answer: Answer<'_>,
        spot: Spot,
    ) -> Result<Vec<u8>, AllocError> {
        if let Some(refused) = answer.refusal(spot) {
            return Ok(message_of(alloc, self.file, refused)?.into_bytes());
        }
        let word = answer.word();
        let heading = format!(in alloc; "err {word}")?;
        self.case.part(&heading).unwrap_or(&[]).to_vec(alloc)
    }

    /// What is wanted where an answer is a refusal.
    fn refusal(&self, alloc: Global, answer: Answer<'_>, spot: Spot) -> Result<Wanted, AllocError> {
        Ok(Wanted {
            status: 1,
            out: Vec::new(alloc),
            only_end: false,
            err: self.message(alloc, answer, spot)?,
            enters: None,
        })
    }

    /// Whether the program answers so where the text is changed at a byte; else the report says
    /// what it answered.
    fn answers<R: Threads + Sync + AllocGlobal>(
        &self,
        rt: &R,
        change: Change,
        answer: Answer<'_>,
        spot: Spot,
        report: &mut String,
    ) -> Result<bool, AllocError> {
        let text = change.of(rt.alloc(), self.text, spot.at)?;
        if answer.is_same() {
            return has_left(rt, self.case, Some(&text), &self.unchanged, report);
        }
        let refused = self.refusal(rt.alloc(), answer, spot)?;
        has_left(rt, self.case, Some(&text), &refused, report)
    }

    /// Runs a change at so many bytes in a row, and adds to the report where it gives something
    /// else than the answer.
    fn run_bytes<R: Threads + Sync + AllocGlobal>(
        &self,
        rt: &R,
        change: Change,
        run: Run<'_>,
        from: Spot,
        report: &mut String,
    ) -> Result<Spot, AllocError> {
        let mut spot = from;
        for _ in 0..run.count {
            if !self.answers(rt, change, run.answer, spot, report)? {
                push_place(rt.alloc(), spot, report)?;
            }
            spot = spot.next(self.text);
        }
        Ok(spot)
    }

    /// Runs a row from a line on, and adds to the report where the program does not answer as it
    /// says.
    pub fn run_row<R: Threads + Sync + AllocGlobal>(
        &self,
        rt: &R,
        row: &str,
        line: u32,
        report: &mut String,
    ) -> Result<(), AllocError> {
        let (name, answers) = row.split_once(' ').unwrap_or((row, ""));
        let Some(change) = Change::named(name) else {
            return report.push_str(" no change of that name");
        };
        let mut spot = Spot::of_line(self.text, line);
        for word in answers.split(' ') {
            if word != "/" {
                spot = self.run_bytes(rt, change, Run::of(word), spot, report)?;
            }
        }
        if spot.at != change.places(self.text.len()) {
            report.push_str(" another number of bytes")?;
        }
        Ok(())
    }
}
