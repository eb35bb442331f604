//! The parts of an answer, as the lines write them.

use crate::lines::Reply;
use json::Writer;
use std::str;
use yaml_scan::yaml_mark_t;

/// A part of an answer that isn't a text of the input: a value of a type with a lifetime is
/// expensive to prove, in each function that makes one.
#[derive(Clone, Copy)]
pub enum Part {
    /// A list begins.
    List,
    /// It ends.
    EndList,
    /// An object begins.
    Object,
    /// It ends.
    EndObject,
    /// A number that isn't negative.
    Count(u64),
    /// A number of 32 bits.
    Number(i32),
    Flag(bool),
    Word(&'static str),
    Null,
    /// Index, line, column.
    Mark(yaml_mark_t),
}

impl Reply {
    /// Puts the part.
    pub fn put(&mut self, part: Part) {
        let writer = &mut self.writer;
        let done = match part {
            Part::List => writer.begin_array(),
            Part::EndList => writer.end_array(),
            Part::Object => writer.begin_object(),
            Part::EndObject => writer.end_object(),
            Part::Count(number) => writer.u64(number),
            Part::Number(number) => writer.i64(i64::from(number)),
            Part::Flag(flag) => writer.boolean(flag),
            Part::Word(word) => writer.string(word),
            Part::Null => writer.null(),
            Part::Mark(mark) => writer
                .begin_array()
                .and(writer.u64(mark.index))
                .and(writer.u64(mark.line))
                .and(writer.u64(mark.column))
                .and(writer.end_array()),
        };
        self.room(done);
    }

    /// Puts the parts, one after another.
    pub fn put_all(&mut self, parts: &[Part]) {
        for part in parts {
            self.put(*part);
        }
    }

    /// Puts the name of the field that comes next.
    pub fn put_name(&mut self, name: &str) {
        let done = self.writer.key(name);
        self.room(done);
    }

    /// Puts a text that is UTF-8.
    pub fn put_utf8(&mut self, text: &[u8]) {
        let text = self.take(str::from_utf8(text).ok(), "text", "");
        let done = self.writer.string(text);
        self.room(done);
    }

    /// Puts bytes, in hexadecimal digits.
    pub fn put_bytes(&mut self, bytes: &[u8]) {
        match hex::encode(self.alloc, bytes) {
            Ok(digits) => self.put_utf8(digits.as_bytes()),
            Err(_) => self.memory(),
        }
    }

    /// Puts a field of an object; an object or a list begins there where the part says so.
    pub fn field(&mut self, name: &str, value: Part) {
        self.put_name(name);
        self.put(value);
    }

    /// Puts a field that is bytes.
    pub fn field_bytes(&mut self, name: &str, bytes: &[u8]) {
        self.put_name(name);
        self.put_bytes(bytes);
    }

    /// Puts a field that is a text.
    pub fn field_utf8(&mut self, name: &str, text: &[u8]) {
        self.put_name(name);
        self.put_utf8(text);
    }

    /// A field that is bytes, or null.
    pub fn field_optional(&mut self, name: &str, bytes: Option<&[u8]>) {
        match bytes {
            Some(bytes) => self.field_bytes(name, bytes),
            None => self.field(name, Part::Null),
        }
    }
}
