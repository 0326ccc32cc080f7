// Cases as their files have them.
use crate::text::Text;
use std::alloc::{AllocError, Global};

/// What a run has to leave.
#[derive(Drop)]
pub struct Wanted {
    /// The exit status.
    pub status: u16,
    /// The output, or its end.
    pub out: Vec<u8>,
    /// Whether only the end of the output is told.
    pub only_end: bool,
    /// The message.
    pub err: Vec<u8>,
    /// How many chunks of systems are decided, where that is told.
    pub enters: Option<u64>,
}

/// A part of a case: its heading and its text.
#[derive(Drop)]
pub struct Part {
    pub heading: String,
    pub text: Text,
}

/// A case: what the program is run on, and what that has to leave.
#[derive(Drop)]
pub struct Case {
    alloc: Global,
    /// Its name in its file.
    pub name: String,
    /// The words of the command.
    pub words: Vec<String>,
    /// The exit status that is wanted.
    pub status: u16,
    /// How many bytes the standard output takes.
    pub room: usize,
    /// How many bytes the standard output takes a call, at most.
    pub pieces: usize,
    /// The numbers of the reads that fail, from 0.
    pub reads: Vec<u64>,
    /// The numbers of the puts to the standard output that fail, from 0.
    pub puts: Vec<u64>,
    /// Of the first chunks of lists of systems, the number of the one that waits for the second
    /// chunk, from 0.
    pub waits: u64,
    /// How many chunks are decided, where that is told.
    pub enters: Option<u64>,
    /// The numbers of the puts to the standard error that fail, from 0.
    pub err_puts: Vec<u64>,
    /// The files, what is wanted, and the changes.
    pub parts: Vec<Part>,
    /// Whether each line is one that a case may have.
    pub is_clear: bool,
    /// Whether it has begun.
    pub has_begun: bool,
}

/// How many bytes a sink takes where a case does not say.
pub const ROOM: usize = 65536;

/// The number of a first chunk that no run comes to.
const NONE_WAITS: u64 = u64::MAX;

impl Case {
    /// A case that has not begun.
    pub fn new(alloc: Global) -> Case {
        Case {
            alloc,
            name: String::new(alloc),
            words: Vec::new(alloc),
            status: 0,
            room: ROOM,
            pieces: ROOM,
            reads: Vec::new(alloc),
            puts: Vec::new(alloc),
            waits: NONE_WAITS,
            enters: None,
            err_puts: Vec::new(alloc),
            parts: Vec::new(alloc),
            is_clear: true,
            has_begun: false,
        }
    }

    /// Begins a case of that name, without words and files.
    pub fn begin(&mut self, name: &str) -> Result<(), AllocError> {
        self.name.clear();
        self.name.push_str(name)?;
        self.words.clear();
        self.status = 0;
        self.room = ROOM;
        self.pieces = ROOM;
        self.reads.clear();
        self.puts.clear();
        self.waits = NONE_WAITS;
        self.enters = None;
        self.err_puts.clear();
        self.parts.clear();
        self.is_clear = true;
        self.has_begun = true;
        Ok(())
    }

    /// Takes a line of the case.
    pub fn push_line(&mut self, line: &str) -> Result<(), AllocError> {
        if let Some(heading) = line.strip_prefix("--- ") {
            return self.begin_part(heading);
        }
        match self.parts.last_mut() {
            Some(part) => part.text.push_line(line),
            None => self.set(line),
        }
    }

    fn begin_part(&mut self, heading: &str) -> Result<(), AllocError> {
        let heading = String::from_str(self.alloc, heading)?;
        self.parts.push(Part {
            heading,
            text: Text::new(self.alloc),
        })?;
        Ok(())
    }

    /// Takes a line before the first part.
    fn set(&mut self, line: &str) -> Result<(), AllocError> {
        match line.rsplit_once(' ') {
            _ if line == "$" => Ok(()),
            _ if line.starts_with("$ ") => self.set_words(line),
            Some((key, number)) => self.set_number(key, number),
            None => {
                self.is_clear = false;
                Ok(())
            }
        }
    }

    /// The words, with a blank between two of them, behind the sign.
    fn set_words(&mut self, line: &str) -> Result<(), AllocError> {
        for word in line.split(' ').skip(1) {
            self.words.push(String::from_str(self.alloc, word)?)?;
        }
        Ok(())
    }

    fn set_number(&mut self, key: &str, number: &str) -> Result<(), AllocError> {
        let Ok(number) = number.parse::<u16>() else {
            self.is_clear = false;
            return Ok(());
        };
        match key {
            "status" => self.status = number,
            "room" => self.room = number as usize,
            "pieces" => self.pieces = number as usize,
            "fail read" => self.reads.push(number as u64)?,
            "fail put" => self.puts.push(number as u64)?,
            "waits" => self.waits = number as u64,
            "enters" => self.enters = Some(number as u64),
            "fail err" => self.err_puts.push(number as u64)?,
            _ => self.is_clear = false,
        }
        Ok(())
    }

    /// The text of the part with that heading, if there is one.
    pub fn part(&self, heading: &str) -> Option<&[u8]> {
        for part in &self.parts {
            if part.heading.as_str() == heading {
                return Some(part.text.bytes());
            }
        }
        None
    }

    /// What a run of the case has to leave.
    pub fn wanted(&self) -> Result<Wanted, AllocError> {
        let end = self.part("out ends");
        let out = end.or(self.part("out")).unwrap_or(&[]);
        let err = self.part("err").unwrap_or(&[]);
        let out = out.to_vec(self.alloc)?;
        Ok(Wanted {
            status: self.status,
            out,
            only_end: end.is_some(),
            err: err.to_vec(self.alloc)?,
            enters: self.enters,
        })
    }
}
