//! On which line of a network list something stands: its text is looked through again, since a table of `toml` doesn't say where
//! its keys stood. What isn't found so has no line: a key that is spelled with escapes, say.

use crate::toml_text::Part;

/// What is looked for in the text.
#[derive(Clone, Copy)]
pub(crate) struct Sought<'a> {
    /// The slave, by its place among the elements of `slave`, from 0; none: the list itself.
    pub slave: Option<usize>,
    /// The key; none: the slave itself.
    pub key: Option<&'a str>,
    /// The element of the key's array, from 0; none: the key itself.
    pub element: Option<usize>,
}

/// What a line in brackets begins, as `[a.b]` or `[[a]]`.
#[derive(Clone, Copy)]
struct Header<'a> {
    /// Whether it begins an element of an array of tables.
    is_element: bool,
    name: Part<'a>,
}

/// The header that a statement is, if it is one.
fn header_of(statement: Part<'_>) -> Option<Header<'_>> {
    let once = statement.inside(b'[')?;
    match once.inside(b'[') {
        Some(twice) => Some(Header {
            is_element: true,
            name: twice.before(b']'),
        }),
        None => Some(Header {
            is_element: false,
            name: once.before(b']'),
        }),
    }
}

/// Whether the statement is a header.
fn is_header(statement: Part<'_>) -> bool {
    header_of(statement).is_some()
}

/// Whether the statement is a header that begins a slave.
fn is_slave_header(statement: Part<'_>) -> bool {
    match header_of(statement) {
        Some(header) => header.is_element && header.name.is_key("slave"),
        None => false,
    }
}

/// Whether the header begins what stands in the slave under this key.
fn begins_key(header: &Header<'_>, key: &str) -> bool {
    if !header.name.before(b'.').is_key("slave") {
        return false;
    }
    match header.name.after(b'.') {
        Some(rest) => rest.before(b'.').is_key(key),
        None => false,
    }
}

/// Whether the statement gives this key of the top table: with its value, in front of all headers, or as the header of a table.
fn gives_top_key(statement: Part<'_>, key: &str, is_top: bool) -> bool {
    match header_of(statement) {
        Some(header) => header.name.before(b'.').is_key(key),
        None => is_top && statement.has_key(key),
    }
}

/// What stands under a key of the top table: the key with its value, or the header that begins it.
fn top_key<'a>(list: Part<'a>, key: &str) -> Option<Part<'a>> {
    let mut rest = list;
    let mut is_top = true;
    for _statement in 0..list.text.len() {
        let statement = rest.before(b'\n');
        if gives_top_key(statement, key, is_top) {
            return Some(statement);
        }
        is_top = is_top && !is_header(statement);
        rest = rest.after(b'\n')?;
    }
    None
}

/// The text from the header on that begins the slave of this number, if one does.
fn slave_behind_header(list: Part<'_>, number: usize) -> Option<Part<'_>> {
    let mut rest = list;
    let mut count = 0usize;
    for _statement in 0..list.text.len() {
        if is_slave_header(rest.before(b'\n')) {
            if count == number {
                return Some(rest.begun());
            }
            count = count.saturating_add(1);
        }
        rest = rest.after(b'\n')?;
    }
    None
}

/// Whether the statement gives this key of a slave: with its value, in front of the headers of the slave's tables, or as one of them.
fn gives_slave_key(statement: Part<'_>, key: &str, is_slave: bool) -> bool {
    match header_of(statement) {
        Some(header) => begins_key(&header, key),
        None => is_slave && statement.has_key(key),
    }
}

/// A key of the slave whose header stands in front of the text, with its value; or the header that begins it.
fn key_behind_header<'a>(slave: Part<'a>, key: &str) -> Option<Part<'a>> {
    let mut rest = slave.after(b'\n')?;
    let mut is_slave = true;
    for _statement in 0..slave.text.len() {
        let statement = rest.before(b'\n');
        if is_slave_header(statement) {
            return None;
        }
        if gives_slave_key(statement, key, is_slave) {
            return Some(statement);
        }
        is_slave = is_slave && !is_header(statement);
        rest = rest.after(b'\n')?;
    }
    None
}

/// A slave's key, or the slave itself without one.
fn slave_key<'a>(list: Part<'a>, number: usize, key: Option<&str>) -> Option<Part<'a>> {
    if let Some(slave) = slave_behind_header(list, number) {
        return match key {
            Some(key) => key_behind_header(slave, key),
            None => Some(slave),
        };
    }
    let slave = top_key(list, "slave")?.value()?.element(number)?;
    match key {
        Some(key) => slave.member(key),
        None => Some(slave),
    }
}

/// The line of what is looked for, counted from 1, where it is found.
pub(crate) fn line_of(text: &[u8], sought: &Sought<'_>) -> Option<usize> {
    let list = Part::whole(text);
    let found = match sought.slave {
        Some(number) => slave_key(list, number, sought.key)?,
        None => top_key(list, sought.key?)?,
    };
    match sought.element {
        Some(number) => Some(found.value()?.element(number)?.line),
        None => Some(found.line),
    }
}
