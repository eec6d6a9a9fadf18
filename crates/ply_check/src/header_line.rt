// What a line of a header says.
ghost use Rattle.std.specs.Prelude.{◌≡◌, ◌∷◌};
ghost use Rattle.ply_check.specs.HeaderLines.{element_count, element_line, element_said, end_line, format_line, header_line, list_line, property_line};

use crate::words::{element_count, is_index_list, is_type, is_word};
use clause_reader::{Line, Tokens};

/// What a line of a header says.
#[derive(Clone, Copy, Debug, PartialEq, Eq)]
pub(crate) enum HeaderLine {
    /// The file is text, of version 1.0.
    Format,
    /// There are so many vertices.
    Vertices(u32),
    /// A vertex has one more number.
    Property,
    /// There are so many faces.
    Faces(u32),
    /// A face is the list of its vertices.
    FaceList,
    /// Nothing: it is skipped.
    Comment,
    /// The header ends.
    End,
    /// It is none of these.
    Other,
}

// What a line of a header says.
pub(crate) fn read_header_line(line: Line<'_>) -> HeaderLine
    ensures { result ≡ header_line (line.entry.first.now ∷ line.entry.others) }
{
    if is_word(line.first, b"format") {
        read_format(line.others)
    } else if is_word(line.first, b"element") {
        read_element(line.others)
    } else if is_word(line.first, b"property") {
        read_property(line.others)
    } else if is_word(line.first, b"comment") || is_word(line.first, b"obj_info") {
        HeaderLine::Comment
    } else {
        read_end(line.first, line.others)
    }
}

// What a line says whose first token is `format`.
fn read_format(mut tokens: Tokens<'_>) -> HeaderLine
    ensures { result ≡ format_line tokens.entry }
{
    let Some(form) = tokens.next() else {
        return HeaderLine::Other;
    };
    let Some(version) = tokens.next() else {
        return HeaderLine::Other;
    };
    match tokens.next() {
        None if is_word(form, b"ascii") && is_word(version, b"1.0") => HeaderLine::Format,
        _ => HeaderLine::Other,
    }
}

// What a line says whose first token is `element`.
fn read_element(mut tokens: Tokens<'_>) -> HeaderLine
    ensures { result ≡ element_line tokens.entry }
{
    let Some(name) = tokens.next() else {
        return HeaderLine::Other;
    };
    let Some(number) = tokens.next() else {
        return HeaderLine::Other;
    };
    match tokens.next() {
        None => read_count(name, number),
        Some(_) => HeaderLine::Other,
    }
}

// How many elements of this name there are.
fn read_count(name: &[u8], number: &[u8]) -> HeaderLine
    ensures { result ≡ element_said name.now (element_count number.now) }
{
    match element_count(number) {
        Some(count) if is_word(name, b"vertex") => HeaderLine::Vertices(count),
        Some(count) if is_word(name, b"face") => HeaderLine::Faces(count),
        _ => HeaderLine::Other,
    }
}

// What a line says whose first token is `property`.
fn read_property(mut tokens: Tokens<'_>) -> HeaderLine
    ensures { result ≡ property_line tokens.entry }
{
    let Some(kind) = tokens.next() else {
        return HeaderLine::Other;
    };
    let Some(name) = tokens.next() else {
        return HeaderLine::Other;
    };
    match tokens.next() {
        None if is_type(kind) => HeaderLine::Property,
        None => HeaderLine::Other,
        Some(numbers) if is_word(kind, b"list") && is_type(name) && is_type(numbers) => {
            read_index_list(tokens)
        }
        Some(_) => HeaderLine::Other,
    }
}

// What a line says where these tokens follow the types of a list.
fn read_index_list(mut tokens: Tokens<'_>) -> HeaderLine
    ensures { result ≡ list_line tokens.entry }
{
    let Some(name) = tokens.next() else {
        return HeaderLine::Other;
    };
    match tokens.next() {
        None if is_index_list(name) => HeaderLine::FaceList,
        _ => HeaderLine::Other,
    }
}

// What a line of this token and these says, where none of the other words begins it.
fn read_end(first: &[u8], mut tokens: Tokens<'_>) -> HeaderLine
    ensures { result ≡ end_line (first.now ∷ tokens.entry) }
{
    match tokens.next() {
        None if is_word(first, b"end_header") => HeaderLine::End,
        _ => HeaderLine::Other,
    }
}
