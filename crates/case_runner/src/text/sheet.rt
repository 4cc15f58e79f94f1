//! How case files are read.

use crate::text::cases::Case;
use crate::text::entries::{Entry, entries_in};
use crate::text::inputs::{Input, append_to};
use crate::text::lines::{Refused, block_of, name_in, number_in, word_and_rest};
use std::alloc::{AllocError, Global};

/// A line that isn't read.
#[derive(Drop)]
pub struct BadLine {
    pub file: String,
    pub number: u64,
}

/// What was read.
#[derive(Drop)]
pub struct Sheet {
    pub cases: Vec<Case>,
    pub bad_lines: Vec<BadLine>,
}

// What is common to the rows that follow.
#[derive(Drop)]
struct Rows {
    words: String,
    is_cut: bool,
    is_faulted: bool,
}

// What stands open behind the entries so far.
#[derive(Clone, Copy)]
enum Within {
    /// The head of a file.
    Head,
    /// The last case.
    Case,
    /// Rows.
    Rows,
}

#[derive(Drop)]
struct Reader {
    alloc: Global,
    file: String,
    /// The words of a case that gives none.
    words: String,
    given: Vec<Input>,
    rows: Rows,
    within: Within,
    sheet: Sheet,
}

// The lines of a column, between which ` / ` stands, each ended by LF.
fn lines_in(alloc: Global, column: &str) -> Result<String, AllocError> {
    let mut text = column.replace(alloc, " / ", "\n")?;
    if !column.is_empty() {
        text.push('\n')?;
    }
    Ok(text)
}

// The columns of a row.
fn columns_in(alloc: Global, row: &str) -> Result<Vec<&str>, Refused> {
    let row = row.strip_prefix("| ").ok_or(Refused::NotRead)?;
    let row = row.strip_suffix(" |").ok_or(Refused::NotRead)?;
    row.split(" | ").collect(alloc).map_err(Refused::from)
}

impl Case {
    // The input that the words are about, what must come out, and the status, by their columns.
    fn take_columns(
        &mut self,
        alloc: Global,
        input: &str,
        status: &str,
        output: &str,
    ) -> Result<(), Refused> {
        self.take_subject(alloc, lines_in(alloc, input)?.as_bytes())?;
        self.wants(alloc, lines_in(alloc, output)?.as_bytes())?;
        self.status = number_in(status.trim())?;
        Ok(())
    }
}

impl Rows {
    fn new(words: String) -> Rows {
        Rows {
            words,
            is_cut: false,
            is_faulted: false,
        }
    }

    fn take(&mut self, word: &str) -> Result<(), Refused> {
        match word {
            "cuts" => self.is_cut = true,
            "faults" => self.is_faulted = true,
            _ => return Err(Refused::NotRead),
        }
        Ok(())
    }
}

impl Reader {
    fn new(alloc: Global) -> Reader {
        Reader {
            alloc,
            file: String::new(alloc),
            words: String::new(alloc),
            given: Vec::new(alloc),
            rows: Rows::new(String::new(alloc)),
            within: Within::Head,
            sheet: Sheet {
                cases: Vec::new(alloc),
                bad_lines: Vec::new(alloc),
            },
        }
    }

    // A case with this title and these words.
    fn case_of(&self, title: &str, words: &str) -> Result<Case, AllocError> {
        Case::new(self.alloc, &self.file, title, words, &self.given)
    }

    fn begin_file(&mut self, name: &str) -> Result<(), Refused> {
        self.within = Within::Head;
        self.file = String::from_str(self.alloc, name)?;
        self.words = String::new(self.alloc);
        self.given = Vec::new(self.alloc);
        Ok(())
    }

    fn begin_case(&mut self, title: &str) -> Result<(), Refused> {
        let case = self.case_of(title, &self.words)?;
        self.within = Within::Case;
        self.sheet.cases.push(case).map_err(Refused::from)
    }

    fn begin_rows(&mut self, words: &str) -> Result<(), Refused> {
        self.rows = Rows::new(String::from_str(self.alloc, words)?);
        self.within = Within::Rows;
        Ok(())
    }

    // Gives an input to the cases that follow, in place of what had its name.
    fn give(&mut self, name: &str, block: Option<&[u8]>) -> Result<(), Refused> {
        let block = block_of(block)?;
        let name = name_in(name)?;
        self.within = Within::Head;
        self.given.retain(|input| input.name.as_str() != name);
        append_to(self.alloc, &mut self.given, name, block, 1)
    }

    // The case of a row of these columns.
    fn row_of(
        &self,
        input: &str,
        status: &str,
        output: &str,
        title: &str,
    ) -> Result<Case, Refused> {
        let mut case = self.case_of(title, &self.rows.words)?;
        case.take_columns(self.alloc, input, status, output)?;
        case.is_cut = self.rows.is_cut;
        case.is_faulted = self.rows.is_faulted;
        Ok(case)
    }

    fn row_in(&self, row: &str) -> Result<Case, Refused> {
        let columns = columns_in(self.alloc, row)?;
        match columns.as_slice() {
            [input, status, output, title] => self.row_of(input, status, output, title),
            _ => Err(Refused::NotRead),
        }
    }

    fn take_row(&mut self, row: &str) -> Result<(), Refused> {
        let case = match self.within {
            Within::Rows => self.row_in(row)?,
            Within::Head | Within::Case => return Err(Refused::NotRead),
        };
        self.sheet.cases.push(case).map_err(Refused::from)
    }

    // An entry of the last case.
    fn take_in_case(
        &mut self,
        word: &str,
        rest: &str,
        block: Option<&[u8]>,
    ) -> Result<(), Refused> {
        match self.sheet.cases.last_mut() {
            Some(case) => case.take(self.alloc, word, rest, block),
            None => Err(Refused::NotRead),
        }
    }

    // An entry of the head of a file.
    fn take_in_head(&mut self, word: &str, rest: &str) -> Result<(), Refused> {
        if word != "words" {
            return Err(Refused::NotRead);
        }
        self.words = String::from_str(self.alloc, rest)?;
        Ok(())
    }

    // An entry of what stands open.
    fn take_within(&mut self, word: &str, rest: &str, block: Option<&[u8]>) -> Result<(), Refused> {
        match self.within {
            Within::Head => self.take_in_head(word, rest),
            Within::Case => self.take_in_case(word, rest, block),
            Within::Rows => self.rows.take(word),
        }
    }

    fn take(&mut self, head: &str, block: Option<&[u8]>) -> Result<(), Refused> {
        if head.starts_with("|") {
            return self.take_row(head);
        }
        let (word, rest) = word_and_rest(head);
        match word {
            "file" => self.begin_file(rest),
            "case" => self.begin_case(rest),
            "rows" => self.begin_rows(rest),
            "given" => self.give(rest, block),
            _ => self.take_within(word, rest, block),
        }
    }

    fn take_entry(&mut self, entry: &Entry) -> Result<(), AllocError> {
        match self.take(&entry.head, entry.block()) {
            Ok(()) => Ok(()),
            Err(Refused::Memory) => Err(AllocError),
            Err(Refused::NotRead) => self.refuse(entry.number),
        }
    }

    fn take_all(&mut self, entries: &[Entry]) -> Result<(), AllocError> {
        for entry in entries {
            self.take_entry(entry)?;
        }
        Ok(())
    }

    fn refuse(&mut self, number: u64) -> Result<(), AllocError> {
        let file = self.file.clone()?;
        let line = BadLine { file, number };
        self.sheet.bad_lines.push(line).map_err(AllocError::from)
    }
}

/// Reads case files, each behind a line `file NAME`.
pub fn read_cases(alloc: Global, text: &str) -> Result<Sheet, AllocError> {
    let entries = entries_in(alloc, text)?;
    let mut reader = Reader::new(alloc);
    reader.take_all(&entries)?;
    Ok(reader.sheet)
}
