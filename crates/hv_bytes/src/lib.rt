//! The fields that files and journals share, in bytes: numbers, texts and lists, read and written exactly.
#![tactic(auto)]

mod fault;
mod items;
mod reading;
mod writing;

pub use fault::FieldFault;
pub use items::{Field, items_length, put_items, read_items};
pub use reading::{read_text, read_u16, read_u32, read_u64};
pub use writing::{put_byte, put_bytes, put_text, put_u16, put_u32, put_u64, text_length};
