//! The parts of a text in TOML, with the lines on which they begin. Of a text that isn't TOML any part may be given.

/// What a byte of the text stands in.
#[derive(Clone, Copy)]
enum Within {
    /// No string and no comment.
    Plain,
    Comment,
    /// Behind one quote, with which a string begins.
    Once(u8),
    /// Behind two quotes: an empty string, or a string of several lines begins.
    Twice(u8),
    /// A string, up to its quote.
    Short(u8),
    /// Behind a backslash of one.
    ShortEscape,
    /// A string of several lines, behind so many quotes in a row, at most 3.
    Long(u8, u8),
    /// Behind a backslash of one.
    LongEscape,
}

impl Within {
    /// What this byte stands in: it may be the first one behind a string or a comment.
    fn at(self, byte: u8) -> Within {
        match self {
            Within::Once(quote) if byte != quote => Within::Short(quote),
            Within::Twice(quote) if byte != quote => Within::Plain,
            Within::Long(quote, 3) if byte != quote => Within::Plain,
            Within::Comment if byte == b'\n' => Within::Plain,
            _ => self,
        }
    }

    /// What the byte behind this one stands in, which stands in that.
    fn next(self, byte: u8) -> Within {
        match self {
            Within::Plain => match byte {
                b'#' => Within::Comment,
                b'"' | b'\'' => Within::Once(byte),
                _ => Within::Plain,
            },
            Within::Comment => Within::Comment,
            Within::Once(quote) => Within::Twice(quote),
            Within::Twice(quote) => Within::Long(quote, 0),
            Within::Short(quote) => next_of_short(quote, byte),
            Within::ShortEscape => Within::Short(b'"'),
            Within::Long(quote, run) => next_of_long(quote, run, byte),
            Within::LongEscape => Within::Long(b'"', 0),
        }
    }
}

/// What stands behind a byte of a string.
fn next_of_short(quote: u8, byte: u8) -> Within {
    if byte == quote {
        Within::Plain
    } else if byte == b'\\' && quote == b'"' {
        Within::ShortEscape
    } else {
        Within::Short(quote)
    }
}

/// What stands behind a byte of a string of several lines, which stands behind so many quotes in a row.
fn next_of_long(quote: u8, run: u8, byte: u8) -> Within {
    if byte == quote {
        Within::Long(quote, run.saturating_add(1).min(3))
    } else if byte == b'\\' && quote == b'"' {
        Within::LongEscape
    } else {
        Within::Long(quote, 0)
    }
}

/// How many bytes stand before the first one like this, or before the bracket that ends the text, in no string, comment or brackets.
fn length_before(text: &[u8], separator: u8) -> usize {
    let mut within = Within::Plain;
    let mut depth = 0usize;
    for (place, byte) in text.iter().enumerate() {
        let here = within.at(*byte);
        if matches!(here, Within::Plain) {
            if depth == 0 && (*byte == separator || is_closing(*byte)) {
                return place;
            }
            depth = depth_behind(depth, *byte);
        }
        within = here.next(*byte);
    }
    text.len()
}

/// Whether the byte ends an array or a table.
fn is_closing(byte: u8) -> bool {
    byte == b']' || byte == b'}'
}

/// In how many brackets the byte behind this one stands.
fn depth_behind(depth: usize, byte: u8) -> usize {
    match byte {
        b'[' | b'{' => depth.saturating_add(1),
        b']' | b'}' => depth.saturating_sub(1),
        _ => depth,
    }
}

/// How many bytes in front are white space, ends of lines and comments.
fn blank_length(text: &[u8]) -> usize {
    let mut is_comment = false;
    for (place, byte) in text.iter().enumerate() {
        match *byte {
            b'\n' => is_comment = false,
            b'#' => is_comment = true,
            b' ' | b'\t' | b'\r' => {}
            _ => {
                if !is_comment {
                    return place;
                }
            }
        }
    }
    text.len()
}

/// How many lines end in these bytes.
fn count_lines(text: &[u8]) -> usize {
    text.iter().filter(|byte| **byte == b'\n').count()
}

/// On which line of the text this byte stands, counted from 1.
pub(crate) fn line_at(text: &[u8], place: usize) -> usize {
    count_lines(text.get(..place).unwrap_or(text)).saturating_add(1)
}

/// A part of a text in TOML.
#[derive(Clone, Copy)]
pub(crate) struct Part<'a> {
    pub text: &'a [u8],
    /// The line on which it begins, counted from 1.
    pub line: usize,
}

impl<'a> Part<'a> {
    /// The whole text, without a byte order mark.
    pub fn whole(text: &'a [u8]) -> Part<'a> {
        let text = match text {
            [0xEF, 0xBB, 0xBF, rest @ ..] => rest,
            _ => text,
        };
        Part { text, line: 1 }
    }

    /// What stands behind so many bytes.
    fn behind(self, count: usize) -> Part<'a> {
        let front = self.text.get(..count).unwrap_or(self.text);
        Part {
            text: self.text.get(count..).unwrap_or(&[]),
            line: self.line.saturating_add(count_lines(front)),
        }
    }

    /// Without white space and comments in front.
    pub fn begun(self) -> Part<'a> {
        self.behind(blank_length(self.text))
    }

    /// What stands before the first separator that isn't in a string, a comment or brackets, without white space in front.
    pub fn before(self, separator: u8) -> Part<'a> {
        let count = length_before(self.text, separator);
        let front = Part {
            text: self.text.get(..count).unwrap_or(self.text),
            line: self.line,
        };
        front.begun()
    }

    /// What stands behind that separator, if there is one.
    pub fn after(self, separator: u8) -> Option<Part<'a>> {
        let count = length_before(self.text, separator);
        let found = self.text.get(count)?;
        if *found == separator {
            Some(self.behind(count.saturating_add(1)))
        } else {
            None
        }
    }

    /// What stands in the brackets with which it begins, if it does.
    pub fn inside(self, bracket: u8) -> Option<Part<'a>> {
        let first = self.text.first()?;
        if *first == bracket {
            Some(self.behind(1))
        } else {
            None
        }
    }

    /// Whether it is this key, bare or in quotes.
    pub fn is_key(self, name: &str) -> bool {
        let text = self.text.trim_ascii();
        let bare = match text {
            [b'"', inner @ .., b'"'] => inner,
            [b'\'', inner @ .., b'\''] => inner,
            _ => text,
        };
        bare == name.as_bytes()
    }

    /// Whether it is this key, or one that begins with it, as `a.b` with `a`, with its value.
    pub fn has_key(self, name: &str) -> bool {
        !self.text.is_empty() && self.before(b'=').before(b'.').is_key(name)
    }

    /// The value of a key, if it is one with its value.
    pub fn value(self) -> Option<Part<'a>> {
        Some(self.after(b'=')?.begun())
    }

    /// The element of this number, counted from 0, of the array that it is.
    pub fn element(self, number: usize) -> Option<Part<'a>> {
        let mut rest = self.inside(b'[')?;
        for _element in 0..number {
            rest = rest.after(b',')?;
        }
        Some(rest.before(b','))
    }

    /// The key of this name, with its value, of the table in braces that it is.
    pub fn member(self, name: &str) -> Option<Part<'a>> {
        let mut rest = self.inside(b'{')?;
        for _member in 0..self.text.len() {
            let member = rest.before(b',');
            if member.has_key(name) {
                return Some(member);
            }
            rest = rest.after(b',')?;
        }
        None
    }
}
