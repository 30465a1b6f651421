//! A certificate with one byte, one number or one line changed: mode `check` finds it valid exactly where a plain
//! reading does.

use crate::files::{BUFFERED, CHECK, printed, small_files};
use std::alloc::Global;
use std::test::Fail;
use vg_store::MemFiles;

/// A required time (zs) and a load (aF).
type Entry = (i128, i128);

/// The lists of a node: for a signal that is not inverted there, and for one that is.
type Lists = (Vec<Entry>, Vec<Entry>);

/// The nodes of the small net, in the order of its tree.
const NODES: [&str; 3] = ["u1:Z", "n1:1", "u2:A"];

/// What a certificate of the small net says: its slack, if it has one, the numbers of the nodes that have a buffer, and
/// the lists of the driver's pin, of the inner node and of the sink.
#[derive(Drop)]
struct Said {
    slack: Option<i128>,
    cells: Vec<usize>,
    driver: Lists,
    inner: Lists,
    sink: Lists,
}

/// The words of a text from some place on, where each end of a line is a word too. What is read is none where other
/// words stand.
#[derive(Drop)]
struct Reader<'a> {
    words: &'a [&'a str],
    at: usize,
}

/// Whether a word is a whole number.
fn is_whole(word: &str) -> bool {
    let digits = word.strip_prefix('-').unwrap_or(word);
    !digits.is_empty() && digits.bytes().all(|byte| byte.is_ascii_digit())
}

impl<'a> Reader<'a> {
    fn word(&mut self) -> Option<&'a str> {
        let word = *self.words.get(self.at)?;
        self.at = self.at.wrapping_add(1);
        Some(word)
    }

    /// These words, with blanks between.
    fn expect(&mut self, wanted: &str) -> Option<()> {
        for other in wanted.split(' ') {
            if self.word()? != other {
                return None;
            }
        }
        Some(())
    }

    fn number(&mut self) -> Option<i128> {
        let word = self.word()?;
        if is_whole(word) {
            word.parse::<i128>().ok()
        } else {
            None
        }
    }

    /// How many lines follow.
    fn count(&mut self) -> Option<i128> {
        let count = self.number()?;
        if count < 0 {
            return None;
        }
        Some(count)
    }

    /// A slack, or `none`.
    fn slack(&mut self) -> Option<Option<i128>> {
        if self.words.get(self.at) == Some(&"none") {
            self.expect("none")?;
            return Some(None);
        }
        let slack = self.number()?;
        Some(Some(slack))
    }

    /// So many buffers, at nodes that rise.
    fn cells(&mut self, alloc: Global, count: i128) -> Option<Vec<usize>> {
        let mut cells: Vec<usize> = Vec::new(alloc);
        for _cell in 0..count {
            self.expect("at")?;
            let word = self.word()?;
            let node = NODES.iter().position(|node| *node == word)?;
            self.expect("BUF \n")?;
            if cells.as_slice().last().is_some_and(|last| node <= *last) {
                return None;
            }
            cells.push(node).ok()?;
        }
        Some(cells)
    }

    /// So many entries, which rise.
    fn list(&mut self, alloc: Global, count: i128) -> Option<Vec<Entry>> {
        let mut list: Vec<Entry> = Vec::new(alloc);
        for _entry in 0..count {
            let q = self.number()?;
            let c = self.number()?;
            self.expect("\n")?;
            let last = list.as_slice().last().copied();
            if c < 0 || last.is_some_and(|last| q <= last.0 || c <= last.1) {
                return None;
            }
            list.push((q, c)).ok()?;
        }
        Some(list)
    }

    /// The lists of a node.
    fn lists(&mut self, alloc: Global, node: &str) -> Option<Lists> {
        self.expect("node")?;
        self.expect(node)?;
        let even = self.count()?;
        let odd = self.count()?;
        self.expect("\n")?;
        let even = self.list(alloc, even)?;
        let odd = self.list(alloc, odd)?;
        Some((even, odd))
    }

    /// A whole certificate.
    fn certificate(&mut self, alloc: Global) -> Option<Said> {
        self.expect("vgcert 1 \n net n1 \n slack")?;
        let slack = self.slack()?;
        self.expect("\n cells")?;
        let count = self.count()?;
        self.expect("\n")?;
        let cells = self.cells(alloc, count)?;
        let driver = self.lists(alloc, "u1:Z")?;
        let inner = self.lists(alloc, "n1:1")?;
        let sink = self.lists(alloc, "u2:A")?;
        self.expect("end \n ")?;
        if self.at < self.words.len() {
            return None;
        }
        Some(Said {
            slack,
            cells,
            driver,
            inner,
            sink,
        })
    }
}

/// Whether a list has an entry with no less time and no more load.
fn covers(list: &[Entry], pair: Entry) -> bool {
    list.iter().any(|(q, c)| *q >= pair.0 && *c <= pair.1)
}

/// A pair past 1 kΩ of wire, at a node with this capacitance.
fn past_wire(pair: Entry, at_node: i128) -> Entry {
    let (q, c) = pair;
    (
        q.wrapping_sub(c.wrapping_mul(1_000_000)),
        c.wrapping_add(at_node),
    )
}

/// A pair past a buffer.
fn past_buffer(pair: Entry) -> Entry {
    let (q, c) = pair;
    let wait = c.wrapping_mul(500_000).wrapping_add(20_000_000_000);
    (q.wrapping_sub(wait), 2_000)
}

/// Whether a list of the inner node covers what comes from one of the sink.
fn covers_inner(from: &[Entry], list: &[Entry]) -> bool {
    from.iter().all(|pair| {
        let bare = past_wire(*pair, 100_000);
        covers(list, bare) && covers(list, past_buffer(bare))
    })
}

/// Whether a list of the driver's pin covers what comes from one of the inner node.
fn covers_driver(from: &[Entry], list: &[Entry]) -> bool {
    from.iter().all(|pair| covers(list, past_wire(*pair, 0)))
}

/// Whether the driver leaves at most this of a pair.
fn is_within(pair: Entry, slack: i128) -> bool {
    let (q, c) = pair;
    let wait = c.wrapping_mul(1_000_000).wrapping_add(10_000_000_000);
    q.wrapping_sub(wait) <= slack
}

impl Said {
    /// Whether the placement is legal and has the slack that is claimed, or none is claimed.
    fn is_sound(&self) -> bool {
        match self.slack {
            None => self.cells.is_empty(),
            Some(slack) => match self.cells.as_slice() {
                [] => slack == -116_000_000_000,
                [node] => *node == 1 && slack == 163_000_000_000,
                _ => false,
            },
        }
    }

    /// Whether the lists of each node cover what comes up from those below.
    fn is_cover(&self) -> bool {
        covers(&self.sink.0, (400_000_000_000, 102_000))
            && covers_inner(&self.sink.0, &self.inner.0)
            && covers_inner(&self.sink.1, &self.inner.1)
            && covers_driver(&self.inner.0, &self.driver.0)
            && covers_driver(&self.inner.1, &self.driver.1)
    }

    /// Whether the driver leaves at most the claimed slack of each pair that is not inverted; where none is claimed
    /// there may be none.
    fn is_bounded(&self) -> bool {
        let mut pairs = self.driver.0.iter();
        pairs.all(|pair| self.slack.is_some_and(|slack| is_within(*pair, slack)))
    }

    fn is_valid(&self) -> bool {
        self.is_sound() && self.is_cover() && self.is_bounded()
    }
}

/// What mode `check` is to print of a text, by a plain reading of it, if that is a valid certificate of the small net.
fn plain_line(alloc: Global, text: &str) -> Result<Option<String>, Fail> {
    let spread = text.replace(alloc, "\t", " ")?;
    let spread = spread.replace(alloc, "\n", " \n ")?;
    let mut words = Vec::new(alloc);
    for word in spread.split(' ') {
        words.push(word)?;
    }
    let mut reader = Reader {
        words: words.as_slice(),
        at: 0,
    };
    let Some(said) = reader.certificate(alloc) else {
        return Ok(None);
    };
    if !said.is_valid() {
        return Ok(None);
    }
    match said.slack {
        Some(slack) => Ok(Some(format!(in alloc; "net n1 certificate valid slack {slack}\n")?)),
        None => Ok(Some(String::from_str(alloc, "net n1 certificate valid none\n")?)),
    }
}

/// The certificate of the buffer with a byte that is greater by so much, where 255 is one less.
fn with_byte(alloc: Global, at: usize, by: u8) -> Result<String, Fail> {
    let mut bytes = BUFFERED.as_bytes().to_vec(alloc)?;
    if let Some(byte) = bytes.get_mut(at) {
        *byte = byte.wrapping_add(by);
    }
    Ok(String::from_utf8_lossy(alloc, &bytes)?)
}

/// The certificate of the buffer with a line so many times.
fn with_line(alloc: Global, at: usize, times: usize) -> Result<String, Fail> {
    let mut text = String::new(alloc);
    for (number, line) in BUFFERED.lines().enumerate() {
        let copies = if number == at { times } else { 1 };
        for _copy in 0..copies {
            text.push_str(line)?;
            text.push_str("\n")?;
        }
    }
    Ok(text)
}

/// How many words the certificate of the buffer has.
const WORDS: usize = 32;

/// The certificate of the buffer with a word, counted over all lines, that is greater by so much if it is a whole
/// number.
fn with_number(alloc: Global, at: usize, by: i128) -> Result<String, Fail> {
    let mut text = String::new(alloc);
    let mut number: usize = 0;
    for line in BUFFERED.lines() {
        for (place, word) in line.split(' ').enumerate() {
            text.push_str(if place > 0 { " " } else { "" })?;
            match word.parse::<i128>() {
                Ok(value) if number == at => {
                    let value = value.wrapping_add(by);
                    text.push_str(format!(in alloc; "{value}")?.as_str())?;
                }
                _ => text.push_str(word)?,
            }
            number = number.wrapping_add(1);
        }
        text.push_str("\n")?;
    }
    Ok(text)
}

/// The certificate of the buffer with one byte, one number or one line changed.
fn changed_texts(alloc: Global) -> Result<Vec<String>, Fail> {
    let mut texts = Vec::new(alloc);
    for at in 0..BUFFERED.len() {
        texts.push(with_byte(alloc, at, 1)?)?;
        texts.push(with_byte(alloc, at, 255)?)?;
    }
    for at in 0..WORDS {
        texts.push(with_number(alloc, at, 1)?)?;
        texts.push(with_number(alloc, at, -1)?)?;
    }
    for at in 0..BUFFERED.lines().count() {
        texts.push(with_line(alloc, at, 0)?)?;
        texts.push(with_line(alloc, at, 2)?)?;
    }
    Ok(texts)
}

/// Whether a text is a valid certificate of the small net, or none where mode `check` finds otherwise than a plain
/// reading.
fn finds(alloc: Global, text: &str, files: &mut MemFiles) -> Result<Option<bool>, Fail> {
    files.add("k.txt", text.as_bytes())?;
    let (status, said) = printed(alloc, CHECK, files)?;
    let (agrees, valid) = match plain_line(alloc, text)? {
        Some(line) => (status == 0 && said == line, true),
        None => (status == 8 && !said.contains(" valid "), false),
    };
    Ok(if agrees { Some(valid) } else { None })
}

/// A changed certificate is valid exactly where a plain reading of it finds all that it has to have.
#[test]
fn judges_changed_certificates(rt: HostRuntime) -> Result<(), Fail> {
    let mut files = small_files(rt.alloc(), 4096, &[])?;
    let mut valid: u32 = 0;
    for text in &changed_texts(rt.alloc())? {
        let found = finds(rt.alloc(), text.as_str(), &mut files)?;
        assert!(rt; found.is_some(), "{text}");
        let counts = found == Some(true) && text.as_str() != BUFFERED;
        valid = valid.wrapping_add(u32::from(counts));
    }
    assert!(rt; valid > 10, "{valid}");
    Ok(())
}
