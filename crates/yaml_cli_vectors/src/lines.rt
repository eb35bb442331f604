//! Lines of test vectors: what a line says, read to settings, tokens, events and documents, and what a call answered, written
//! as a line has it and compared with what the line wants. A line is an object of JSON; bytes are in it as hexadecimal digits.

mod document;
mod event;
mod field;
mod given;
mod made;
mod parts;
mod reply;
mod scripted;
mod setting;
mod shown;
mod token;
mod wanted;
mod words;

pub use document::show_document;
pub use event::show_event;
pub use given::event_of;
pub use made::{add_node, append, document_of, empty_document};
pub use parts::Part;
pub use reply::{MEMORY, Reply};
pub use scripted::Stream;
pub use setting::{Settings, engine_settings, settings_of};
pub use shown::own_fault;
pub use token::{read_token, show_token, tokens};
pub use wanted::first_wrong;
pub use words::{ENCODINGS, Row, word_at};
