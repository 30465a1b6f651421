//! Reads the cases of a case file, line by line.

use crate::case::{Case, Change, Content, Edit, Run, Step, Wanted};
use crate::fault::{Fault, FaultAt};
use crate::mark::{Mark, mark_of, number_of};
use crate::word::Word;
use crate::words::{mode_words, plain_words};
use std::alloc::Global;

/// What lines up to a line `.` are for.
#[derive(Clone, Copy)]
enum Use {
    /// A file becomes these.
    Whole,
    /// They are put in, the first of them as the line of this number.
    With(usize),
    /// They are put in behind the last line.
    Behind,
    /// A run has to write these.
    Wanted,
}

/// Lines up to a line `.`, which are being read: the line before them, and the file that they are of.
#[derive(Drop)]
struct Body {
    line: usize,
    file: String,
    place: Use,
    text: Vec<u8>,
}

/// What words behind a file's name ask for.
#[derive(Drop)]
enum Asked {
    /// This change.
    Now(Change),
    /// A change by the lines that follow.
    Lines(Use),
}

/// The cases of the lines that were read.
#[derive(Drop)]
struct Reader<'a> {
    alloc: Global,
    base: Option<&'a str>,
    cases: Vec<Case<'a>>,
    case: Option<Case<'a>>,
    run: Option<Run>,
    body: Option<Body>,
}

/// The change that words behind a file's name ask for.
fn change_of(alloc: Global, words: &[Word]) -> Result<Asked, Fault> {
    match words {
        [equals] if equals.is("=") => Ok(Asked::Lines(Use::Whole)),
        [plus] if plus.is("+") => Ok(Asked::Lines(Use::Behind)),
        [place] => line_change(alloc, place),
        [equals, what] if equals.is("=") => Ok(Asked::Now(whole_of(alloc, what)?)),
        [place, line] => Ok(Asked::Now(line_put_in(alloc, place, line)?)),
        [old, arrow, new] if arrow.is("=>") => Ok(Asked::Now(Change::Once(
            old.to_quoted(alloc)?,
            new.to_quoted(alloc)?,
        ))),
        [each, old, arrow, new] if each.is("each") && arrow.is("=>") => Ok(Asked::Now(Change::Each(
            old.to_quoted(alloc)?,
            new.to_quoted(alloc)?,
        ))),
        _ => Err(Fault::Mark),
    }
}

/// The change of a whole file to a text in quotes, or to what another file holds.
fn whole_of(alloc: Global, what: &Word) -> Result<Change, Fault> {
    if what.is_quoted {
        Ok(Change::Text(what.to_quoted(alloc)?))
    } else {
        Ok(Change::Like(what.to_string(alloc)?))
    }
}

/// The change of words `K+ "TEXT"`.
fn line_put_in(alloc: Global, place: &Word, line: &Word) -> Result<Change, Fault> {
    let mut text = line.to_quoted(alloc)?;
    text.push(b'\n')?;
    let place = place.to_string(alloc)?;
    match place.as_str().strip_suffix('+') {
        Some("") => Ok(Change::Behind(text)),
        Some(number) => Ok(Change::With(number_of(number)?, text)),
        None => Err(Fault::Mark),
    }
}

/// The change of a word `-K`, `<K` or `K+`.
fn line_change(alloc: Global, word: &Word) -> Result<Asked, Fault> {
    let text = word.to_string(alloc)?;
    if let Some(number) = text.as_str().strip_prefix('-') {
        return Ok(Asked::Now(Change::Without(number_of(number)?)));
    }
    if let Some(number) = text.as_str().strip_prefix('<') {
        return Ok(Asked::Now(Change::First(number_of(number)?)));
    }
    if let Some(number) = text.as_str().strip_suffix('+') {
        return Ok(Asked::Lines(Use::With(number_of(number)?)));
    }
    Err(Fault::Mark)
}

/// What words behind a file's name ask that it holds; none where lines follow.
fn content_of(alloc: Global, words: &[Word]) -> Result<Option<Content>, Fault> {
    match words {
        [] => Ok(None),
        [absent] if absent.is("absent") => Ok(Some(Content::Absent)),
        [equals, text] if equals.is("=") && text.is_quoted => {
            Ok(Some(Content::Text(text.to_quoted(alloc)?)))
        }
        [equals, other] if equals.is("=") => Ok(Some(Content::Like(other.to_string(alloc)?))),
        _ => Err(Fault::Mark),
    }
}

/// A file's name, and the words behind it.
fn file_of(alloc: Global, words: &[Word]) -> Result<(String, &[Word]), Fault> {
    let Some((file, rest)) = words.split_first() else {
        return Err(Fault::Mark);
    };
    Ok((file.to_string(alloc)?, rest))
}

impl<'a> Reader<'a> {
    /// Adds what the case does next.
    fn add(&mut self, step: Step) -> Result<(), Fault> {
        let Some(case) = &mut self.case else {
            return Err(Fault::NoCase);
        };
        case.steps.push(step)?;
        Ok(())
    }

    /// Ends the run that is being read, if there is one.
    fn end_run(&mut self) -> Result<(), Fault> {
        match self.run.take() {
            Some(run) => self.add(Step::Run(run)),
            None => Ok(()),
        }
    }

    /// Ends the case that is being read, if there is one.
    fn end_case(&mut self) -> Result<(), Fault> {
        self.end_run()?;
        if let Some(case) = self.case.take() {
            self.cases.push(case)?;
        }
        Ok(())
    }

    /// Begins a case.
    fn begin_case(&mut self, line: usize, title: &'a str) -> Result<(), Fault> {
        self.end_case()?;
        self.case = Some(Case {
            line,
            title,
            base: self.base,
            steps: Vec::new(self.alloc),
        });
        Ok(())
    }

    /// Begins a run with these words.
    fn begin_run(&mut self, line: usize, words: Vec<String>) -> Result<(), Fault> {
        self.end_run()?;
        self.run = Some(Run {
            line,
            end: line,
            words,
            status: 0,
            printed: Vec::new(self.alloc),
            told: Vec::new(self.alloc),
            files: Vec::new(self.alloc),
        });
        Ok(())
    }

    /// The run that is being read, whose last line this is.
    fn open_run(&mut self, line: usize) -> Result<&mut Run, Fault> {
        let Some(run) = &mut self.run else {
            return Err(Fault::NoRun);
        };
        run.end = line;
        Ok(run)
    }

    /// Begins lines up to a line `.`.
    fn begin_body(&mut self, line: usize, file: String, place: Use) {
        self.body = Some(Body {
            line,
            file,
            place,
            text: Vec::new(self.alloc),
        });
    }

    /// Takes a change of a file.
    fn take_edit(&mut self, line: usize, words: &[Word]) -> Result<(), Fault> {
        self.end_run()?;
        let (file, rest) = file_of(self.alloc, words)?;
        match change_of(self.alloc, rest)? {
            Asked::Now(change) => self.add(Step::Edit(Edit { line, file, change })),
            Asked::Lines(place) => {
                self.begin_body(line, file, place);
                Ok(())
            }
        }
    }

    /// Takes what a file has to hold.
    fn take_wanted(&mut self, line: usize, words: &[Word]) -> Result<(), Fault> {
        let (file, rest) = file_of(self.alloc, words)?;
        let alloc = self.alloc;
        let run = self.open_run(line)?;
        match content_of(alloc, rest)? {
            Some(content) => run.files.push(Wanted { file, content })?,
            None => self.begin_body(line, file, Use::Wanted),
        }
        Ok(())
    }

    /// Ends the lines before this one.
    fn end_body(&mut self, number: usize, body: Body) -> Result<(), Fault> {
        let Body {
            line,
            file,
            place,
            text,
        } = body;
        let change = match place {
            Use::Whole => Change::Text(text),
            Use::With(place) => Change::With(place, text),
            Use::Behind => Change::Behind(text),
            Use::Wanted => {
                let content = Content::Text(text);
                self.open_run(number)?.files.push(Wanted { file, content })?;
                return Ok(());
            }
        };
        self.add(Step::Edit(Edit { line, file, change }))
    }

    /// Takes a line of the lines up to a line `.`, or that one.
    fn take_body(&mut self, number: usize, line: &str, mut body: Body) -> Result<(), Fault> {
        match line {
            "." => self.end_body(number, body),
            ". no line end" => {
                let _ = body.text.pop();
                self.end_body(number, body)
            }
            _ => {
                body.text.extend_from_slice(line.as_bytes())?;
                body.text.push(b'\n')?;
                self.body = Some(body);
                Ok(())
            }
        }
    }

    /// Takes a line of standard output, or of standard error.
    fn take_output(&mut self, number: usize, line: &str, is_error: bool) -> Result<(), Fault> {
        let run = self.open_run(number)?;
        let text = if is_error {
            &mut run.told
        } else {
            &mut run.printed
        };
        text.extend_from_slice(line.as_bytes())?;
        text.push(b'\n')?;
        Ok(())
    }

    /// Takes a line with a mark.
    fn take_mark(&mut self, number: usize, mark: Mark<'a>) -> Result<(), Fault> {
        match mark {
            Mark::Comment => self.end_run(),
            Mark::Base(name) => {
                self.end_case()?;
                self.base = Some(name);
                Ok(())
            }
            Mark::Case(title) => self.begin_case(number, title),
            Mark::Edit(words) => self.take_edit(number, &words),
            Mark::Run(words) => {
                let words = mode_words(self.alloc, &words)?;
                self.begin_run(number, words)
            }
            Mark::Words(words) => {
                let words = plain_words(self.alloc, &words)?;
                self.begin_run(number, words)
            }
            Mark::Status(status) => {
                self.open_run(number)?.status = status;
                Ok(())
            }
            Mark::Told(line) => self.take_output(number, line, true),
            Mark::Printed(line) => self.take_output(number, line, false),
            Mark::File(words) => self.take_wanted(number, &words),
        }
    }

    /// Takes a line.
    fn take(&mut self, number: usize, line: &'a str) -> Result<(), Fault> {
        match self.body.take() {
            Some(body) => self.take_body(number, line, body),
            None => {
                let mark = mark_of(self.alloc, line)?;
                self.take_mark(number, mark)
            }
        }
    }

    /// The cases, where the file ends behind this line.
    fn finish(mut self, line: usize) -> Result<Vec<Case<'a>>, FaultAt> {
        if let Some(body) = &self.body {
            return Err(FaultAt {
                line: body.line,
                fault: Fault::NoEnd,
            });
        }
        if let Err(fault) = self.end_case() {
            return Err(FaultAt { line, fault });
        }
        let Reader {
            alloc: _,
            base: _,
            cases,
            case: _,
            run: _,
            body: _,
        } = self;
        Ok(cases)
    }
}

/// The cases of a case file.
pub(crate) fn read_cases(alloc: Global, text: &str) -> Result<Vec<Case<'_>>, FaultAt> {
    let mut reader = Reader {
        alloc,
        base: None,
        cases: Vec::new(alloc),
        case: None,
        run: None,
        body: None,
    };
    let mut number = 0usize;
    for line in text.lines() {
        number = number.saturating_add(1);
        if let Err(fault) = reader.take(number, line) {
            return Err(FaultAt {
                line: number,
                fault,
            });
        }
    }
    reader.finish(number)
}
