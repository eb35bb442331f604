//! What a line says: the fields of an object and the items of a list, read by their paths.

use crate::lines::Reply;
use serde_json::Value;
use yaml_scan::yaml_mark_t;

// A path is a pointer of JSON: `/settings/limit`, `/0`. An error says it.
impl Reply {
    /// What is there, else the value itself.
    pub fn value<'a>(&mut self, of: &'a Value, path: &'static str) -> &'a Value {
        self.take(of.pointer(path), path, of)
    }

    /// The text there.
    pub fn text<'a>(&mut self, of: &'a Value, path: &'static str) -> &'a str {
        let text = self.value(of, path).as_str();
        self.take(text, path, "")
    }

    /// A copy of those bytes.
    pub fn copy(&mut self, bytes: &[u8]) -> Vec<u8> {
        let mut copied = Vec::new(self.alloc);
        self.room(copied.extend_from_slice(bytes));
        copied
    }

    /// The bytes there, in hexadecimal digits.
    pub fn bytes(&mut self, of: &Value, path: &'static str) -> Vec<u8> {
        match hex::decode(self.alloc, self.text(of, path)) {
            Ok(bytes) => return bytes,
            Err(hex::FromHexError::OutOfMemory) => self.memory(),
            Err(_) => self.miss(path),
        }
        Vec::new(self.alloc)
    }

    /// The bytes there, in hexadecimal digits; none where nothing is there, or null.
    pub fn optional_bytes(&mut self, of: &Value, path: &'static str) -> Option<Vec<u8>> {
        match of.pointer(path) {
            None | Some(Value::Null) => None,
            _ => Some(self.bytes(of, path)),
        }
    }

    /// The input there: bytes in hexadecimal digits, or a list of pieces, each with how often it is repeated.
    pub fn input(&mut self, of: &Value, path: &'static str) -> Vec<u8> {
        if !self.value(of, path).is_array() {
            return self.bytes(of, path);
        }
        let mut bytes = Vec::new(self.alloc);
        for piece in self.list(of, path) {
            let repeated = self.bytes(piece, "/0");
            for _ in 0..self.count(piece, "/1") {
                self.room(bytes.extend_from_slice(repeated.as_slice()));
            }
        }
        bytes
    }

    /// True or false there.
    pub fn flag(&mut self, of: &Value, path: &'static str) -> bool {
        let flag = self.value(of, path).as_bool();
        self.take(flag, path, false)
    }

    /// The number that isn't negative there.
    pub fn count(&mut self, of: &Value, path: &'static str) -> u64 {
        let count = self.value(of, path).as_u64();
        self.take(count, path, 0)
    }

    /// The number of 32 bits there.
    pub fn number(&mut self, of: &Value, path: &'static str) -> i32 {
        let number = self.value(of, path).as_i64().unwrap_or(i64::MAX);
        self.take(i32::try_from(number).ok(), path, 0)
    }

    /// The list there.
    pub fn list<'a>(&mut self, of: &'a Value, path: &'static str) -> &'a [Value] {
        let list = self.value(of, path).as_array().map(|list| list.as_slice());
        self.take(list, path, &[])
    }

    /// The mark there: index, line, column.
    pub fn mark(&mut self, of: &Value, path: &'static str) -> yaml_mark_t {
        let mark = self.value(of, path);
        yaml_mark_t {
            index: self.count(mark, "/0"),
            line: self.count(mark, "/1"),
            column: self.count(mark, "/2"),
        }
    }
}
