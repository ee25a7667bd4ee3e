//! Names, texts and schemas, and the cells of values by their texts.
use crate::listing::is_text;
use og_value::{
    CellRefusal, Column, Kind, Name, NameRefusal, Schema, Text, TextRefusal, Value, read_cell,
    write_cell,
};
use std::alloc::Global;

// Whether a copy of the name is the same, and has its bytes.
fn is_copied(read: &Name, name: &str) -> bool {
    match read.copy() {
        Ok(copy) => copy == *read && is_text(copy.bytes(), name),
        Err(_) => false,
    }
}

// Whether the word is read as that name, and a copy of it is the same.
fn is_name(alloc: Global, word: &str, name: &str) -> bool {
    match Name::of(alloc, word.as_bytes()) {
        Ok(read) => read.as_str() == name && is_copied(&read, name),
        Err(_) => false,
    }
}

#[test]
fn a_name_is_a_word_in_lower_case(rt: HostRuntime) {
    for (word, name) in &[("ID", "id"), ("_a1", "_a1"), ("Select", "select")] {
        assert!(rt; is_name(rt.alloc(), word, name), "{word}");
    }
    assert!(rt; Name::of(rt.alloc(), b"2x").err() == Some(NameRefusal::NotAName));
}

// Whether the text has its bytes, and a copy is the same.
fn is_kept(read: &Text, text: &str) -> bool {
    match read.copy() {
        Ok(copy) => copy == *read && read.as_str() == text && is_text(read.bytes(), text),
        Err(_) => false,
    }
}

// Whether the text is read as it is.
fn is_read(alloc: Global, text: &str) -> bool {
    match Text::of(alloc, text.as_bytes()) {
        Ok(read) => is_kept(&read, text),
        Err(_) => false,
    }
}

// Texts of up to 14 bytes are held otherwise than longer ones.
#[test]
fn a_text_is_utf8(rt: HostRuntime) {
    for text in &["", "a", "fourteen bytes", "fourteen bytes!"] {
        assert!(rt; is_read(rt.alloc(), text), "{text}");
    }
    assert!(rt; Text::of(rt.alloc(), b"\xff").err() == Some(TextRefusal::NotText));
}

// Whether it is a schema of the one column.
fn is_schema_of(schema: &Schema, column: &Column) -> bool {
    match schema.copy() {
        Ok(copy) => copy == *schema && schema.len() == 1 && *schema.column(0) == *column,
        Err(_) => false,
    }
}

#[test]
fn a_schema_has_its_columns(rt: HostRuntime) {
    let column = Column {
        name: Name::of(rt.alloc(), b"id").expect(&rt, "a name"),
        kind: Kind::Int,
    };
    let copy = column.copy().expect(&rt, "memory");
    let columns = Vec::from_array(rt.alloc(), [copy]).expect(&rt, "memory");
    assert!(rt; is_schema_of(&Schema::of(columns), &column));
}

// Whether a copy of the value is the same.
fn is_same(value: &Value) -> bool {
    match value.copy() {
        Ok(copy) => copy == *value,
        Err(_) => false,
    }
}

// Whether the value is written as the text.
fn is_written(alloc: Global, value: &Value, text: &str) -> bool {
    let mut out = Vec::new(alloc);
    write_cell(value, &mut out).is_ok() && is_text(out.as_slice(), text)
}

// Whether the text is a cell of the kind, and is written so.
fn is_cell(alloc: Global, kind: Kind, text: &str, written: &str) -> bool {
    match read_cell(alloc, kind, text.as_bytes()) {
        Ok(value) => is_written(alloc, &value, written) && is_same(&value),
        Err(_) => false,
    }
}

#[test]
fn each_cell_is_read_and_written_again(rt: HostRuntime) {
    for (kind, text, written) in &[
        (Kind::Int, "7", "7"),
        (Kind::Int, "007", "7"),
        (Kind::Int, "-0", "0"),
        (Kind::Int, "-9223372036854775808", "-9223372036854775808"),
        (Kind::Int, "9223372036854775807", "9223372036854775807"),
        (Kind::Text, "", ""),
        (Kind::Text, "+7, \u{e4}", "+7, \u{e4}"),
        (Kind::Date, "now", "now"),
        (Kind::Date, "+2020-06-30", "+2020-06-30"),
        (Kind::Date, "2020-01-01+", "2020-01-01+"),
        (Kind::Period, "[now,infinity)", "[now,infinity)"),
        (
            Kind::Period,
            "[-000044-03-15+2020-01-01,2020-01-01+)",
            "[-000044-03-15+2020-01-01,2020-01-01+)",
        ),
    ] {
        assert!(rt; is_cell(rt.alloc(), *kind, text, written), "{text}");
    }
}

// Whether the bytes are refused as a cell of the kind.
fn is_no_cell(alloc: Global, kind: Kind, bytes: &[u8]) -> bool {
    read_cell(alloc, kind, bytes).err() == Some(CellRefusal::NotACell)
}

#[test]
fn other_texts_are_no_cells(rt: HostRuntime) {
    for (kind, text) in &[
        (Kind::Int, "+7"),
        (Kind::Int, ""),
        (Kind::Int, "-"),
        (Kind::Int, " 7"),
        (Kind::Int, "9223372036854775808"),
        (Kind::Int, "-9223372036854775809"),
        (Kind::Date, "2019-02-29"),
        (Kind::Period, "now"),
    ] {
        assert!(rt; is_no_cell(rt.alloc(), *kind, text.as_bytes()), "{text}");
    }
    assert!(rt; is_no_cell(rt.alloc(), Kind::Text, b"\xff"));
}
