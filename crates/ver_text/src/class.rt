//! Classes of bytes, and runs of bytes of one class.

ghost use Rattle.std.specs.Prelude.{◌≡◌, ◌+◌, ◌≤◌, length, drop};
ghost use Rattle.std.specs.List.{prefix_len};
ghost use Rattle.vg_num.specs.Number.{is_digit};
ghost use Rattle.vg_scan.specs.Lines.{is_blank};
ghost use Rattle.ver_text.specs.Bytes.{is_letter, is_word_byte, is_mark, is_printable, is_in_line, is_known_digit, is_unknown_digit, is_digit_of, base_of};
ghost use Rattle.ver_text.specs.Classes.{is_of};

// Each byte of a simple identifier stands at its own place, and a dot at every other place.
static WORD_BYTES: [u8; 256] = *b"\
    ................................\
    ....$...........0123456789......\
    .ABCDEFGHIJKLMNOPQRSTUVWXYZ...._\
    .abcdefghijklmnopqrstuvwxyz.....\
    ................................\
    ................................\
    ................................\
    ................................";

// Each byte that is a token stands at its own place, and an underscore at every other place.
static MARK_BYTES: [u8; 256] = *b"\
    ________________________________\
    ___#____()__,_.___________:;_=__\
    ___________________________[_]__\
    ___________________________{_}__\
    ________________________________\
    ________________________________\
    ________________________________\
    ________________________________";

/// The base of a number.
#[derive(Clone, Copy)]
pub(crate) enum Base {
    Binary,
    Octal,
    Decimal,
    Hexadecimal,
}

/// A class of bytes.
#[derive(Clone, Copy)]
pub(crate) enum Class {
    /// Spaces and tabs.
    Blank,
    /// The bytes of a line.
    InLine,
    /// The bytes of a simple identifier after its first.
    Word,
    /// The bytes of an escaped identifier after its first.
    Printable,
    /// Decimal digits.
    Digit,
    /// The digits of a base.
    DigitOf(Base),
}

pub(crate) fn is_blank(byte: u8) -> bool
    ensures { result ≡ is_blank byte }
{
    byte == b' ' || byte == b'\t'
}

pub(crate) fn is_letter(byte: u8) -> bool
    ensures { result ≡ is_letter byte }
{
    (b'a' <= byte && byte <= b'z') || (b'A' <= byte && byte <= b'Z') || byte == b'_'
}

pub(crate) fn is_digit(byte: u8) -> bool
    ensures { result ≡ is_digit byte }
{
    b'0' <= byte && byte <= b'9'
}

pub(crate) fn is_word_byte(byte: u8) -> bool
    ensures { result ≡ is_word_byte byte }
{
    WORD_BYTES[byte as usize] != b'.'
}

pub(crate) fn is_mark(byte: u8) -> bool
    ensures { result ≡ is_mark byte }
{
    MARK_BYTES[byte as usize] != b'_'
}

fn is_printable(byte: u8) -> bool
    ensures { result ≡ is_printable byte }
{
    33 <= byte && byte <= 126
}

fn is_unknown_digit(byte: u8) -> bool
    ensures { result ≡ is_unknown_digit byte }
{
    byte == b'x' || byte == b'z' || byte == b'?' || byte == b'_'
}

impl Base {
    /// The base that a letter stands for.
    pub(crate) fn of(letter: u8) -> Option<Base>
        ensures { result ≡ base_of letter }
    {
        match letter {
            b'b' | b'B' => Some(Base::Binary),
            b'o' | b'O' => Some(Base::Octal),
            b'd' | b'D' => Some(Base::Decimal),
            b'h' | b'H' => Some(Base::Hexadecimal),
            _ => None,
        }
    }

    fn is_known_digit(self, byte: u8) -> bool
        ensures { result ≡ is_known_digit self byte }
    {
        match self {
            Base::Binary => b'0' <= byte && byte <= b'1',
            Base::Octal => b'0' <= byte && byte <= b'7',
            Base::Decimal => is_digit(byte),
            Base::Hexadecimal => is_digit(byte) || (b'a' <= byte && byte <= b'f'),
        }
    }

    fn is_digit(self, byte: u8) -> bool
        ensures { result ≡ is_digit_of self byte }
    {
        self.is_known_digit(byte) || is_unknown_digit(byte)
    }
}

impl Class {
    #[inline(always)]
    fn has(self, byte: u8) -> bool
        ensures { result ≡ is_of self byte }
    {
        match self {
            Class::Blank => is_blank(byte),
            Class::InLine => byte != b'\n',
            Class::Word => is_word_byte(byte),
            Class::Printable => is_printable(byte),
            Class::Digit => is_digit(byte),
            Class::DigitOf(base) => base.is_digit(byte),
        }
    }

    /// Where the bytes of this class end that stand at a place of a text.
    #[inline(always)]
    pub(crate) fn end(self, text: &[u8], from: usize) -> usize
        requires { from ≤ length text.now }
        ensures run { result ≡ from + prefix_len (is_of self) (drop from text.now) }
        ensures within { result ≤ length text.now }
    {
        let mut end = from;
        'run: while end < text.len() && self.has(text[end]) {
            end += 1;
        }
        end
    }

    /// How many bytes of this class stand at the beginning of a text.
    #[inline(always)]
    pub(crate) fn run(self, text: &[u8]) -> usize
        ensures run { result ≡ prefix_len (is_of self) text.now }
        ensures within { result ≤ length text.now }
    {
        self.end(text, 0)
    }
}
