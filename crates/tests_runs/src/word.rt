//! The words of a line of a case file.
//!
//! Words are parted at blanks. A word may stand in quotes, where a backslash begins a byte that is written in another
//! way.

use crate::fault::Fault;
use std::alloc::Global;
use std::mem;

/// A word: what it says, and whether it stands in quotes.
#[derive(Drop)]
pub(crate) struct Word {
    pub(crate) text: Vec<u8>,
    pub(crate) is_quoted: bool,
}

impl Word {
    /// Whether it is this word, without quotes.
    pub(crate) fn is(&self, word: &str) -> bool {
        !self.is_quoted && self.text.as_slice() == word.as_bytes()
    }

    /// Its text as a string.
    pub(crate) fn to_string(&self, alloc: Global) -> Result<String, Fault> {
        Ok(String::from_utf8_lossy(alloc, &self.text)?)
    }

    /// A copy of its text, if it stands in quotes.
    pub(crate) fn to_quoted(&self, alloc: Global) -> Result<Vec<u8>, Fault> {
        if !self.is_quoted {
            return Err(Fault::Quotes);
        }
        Ok(Vec::from_slice(alloc, &self.text)?)
    }
}

/// Where in a line the next byte stands.
#[derive(Clone, Copy, PartialEq, Eq)]
enum Place {
    /// Between words.
    Between,
    /// In a word without quotes.
    Plain,
    /// In quotes.
    Quoted,
    /// In quotes, behind a backslash.
    Escape,
    /// Behind the `x` of a byte by its number.
    High,
    /// Behind the first digit of that number, which is this.
    Low(u8),
    /// Behind the closing quote.
    Closed,
}

/// The words of the part of a line that was read.
#[derive(Drop)]
struct Splitter {
    alloc: Global,
    words: Vec<Word>,
    text: Vec<u8>,
    place: Place,
}

/// The value of a hexadecimal digit.
fn hex_value(byte: u8) -> Result<u8, Fault> {
    match byte {
        b'0'..=b'9' => Ok(byte.wrapping_sub(b'0')),
        b'a'..=b'f' => Ok(byte.wrapping_sub(b'a').wrapping_add(10)),
        b'A'..=b'F' => Ok(byte.wrapping_sub(b'A').wrapping_add(10)),
        _ => Err(Fault::Quotes),
    }
}

/// The byte that a letter behind a backslash writes.
fn escaped(letter: u8) -> Result<u8, Fault> {
    match letter {
        b'n' => Ok(b'\n'),
        b't' => Ok(b'\t'),
        b'r' => Ok(b'\r'),
        b'"' | b'\\' => Ok(letter),
        _ => Err(Fault::Quotes),
    }
}

impl Splitter {
    /// Ends the word that was read.
    fn end_word(&mut self, is_quoted: bool) -> Result<(), Fault> {
        let text = mem::replace(&mut self.text, Vec::new(self.alloc));
        self.words.push(Word { text, is_quoted })?;
        Ok(())
    }

    /// Takes a byte outside of quotes.
    fn take_plain(&mut self, byte: u8) -> Result<Place, Fault> {
        match (self.place, byte) {
            (Place::Between, b'"') => Ok(Place::Quoted),
            (Place::Between, b' ') => Ok(Place::Between),
            (Place::Closed, b' ') => {
                self.end_word(true)?;
                Ok(Place::Between)
            }
            (Place::Closed, _) => Err(Fault::Quotes),
            (_, b' ') => {
                self.end_word(false)?;
                Ok(Place::Between)
            }
            _ => {
                self.text.push(byte)?;
                Ok(Place::Plain)
            }
        }
    }

    /// Takes a byte in quotes, behind no backslash.
    fn take_quoted(&mut self, byte: u8) -> Result<Place, Fault> {
        match byte {
            b'"' => Ok(Place::Closed),
            b'\\' => Ok(Place::Escape),
            _ => {
                self.text.push(byte)?;
                Ok(Place::Quoted)
            }
        }
    }

    /// Takes a byte behind a backslash.
    fn take_escaped(&mut self, byte: u8) -> Result<Place, Fault> {
        if byte == b'x' {
            return Ok(Place::High);
        }
        self.text.push(escaped(byte)?)?;
        Ok(Place::Quoted)
    }

    /// Takes the second digit of a byte's number.
    fn take_low(&mut self, high: u8, byte: u8) -> Result<Place, Fault> {
        let low = hex_value(byte)?;
        self.text.push(high.wrapping_mul(16).wrapping_add(low))?;
        Ok(Place::Quoted)
    }

    /// Takes the next byte of the line.
    fn take(&mut self, byte: u8) -> Result<(), Fault> {
        self.place = match self.place {
            Place::Between | Place::Plain | Place::Closed => self.take_plain(byte)?,
            Place::Quoted => self.take_quoted(byte)?,
            Place::Escape => self.take_escaped(byte)?,
            Place::High => Place::Low(hex_value(byte)?),
            Place::Low(high) => self.take_low(high, byte)?,
        };
        Ok(())
    }

    /// The words, where the line ends here.
    fn finish(mut self) -> Result<Vec<Word>, Fault> {
        match self.place {
            Place::Between => {}
            Place::Plain => self.end_word(false)?,
            Place::Closed => self.end_word(true)?,
            Place::Quoted | Place::Escape | Place::High | Place::Low(_) => {
                return Err(Fault::Quotes);
            }
        }
        let Splitter {
            alloc: _,
            words,
            text: _,
            place: _,
        } = self;
        Ok(words)
    }
}

/// The words of a text in a line.
pub(crate) fn words_of(alloc: Global, line: &str) -> Result<Vec<Word>, Fault> {
    let mut splitter = Splitter {
        alloc,
        words: Vec::new(alloc),
        text: Vec::new(alloc),
        place: Place::Between,
    };
    for byte in line.bytes() {
        splitter.take(byte)?;
    }
    splitter.finish()
}
