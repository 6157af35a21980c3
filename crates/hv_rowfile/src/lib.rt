//! The files that hold inserted rows and deletes, in bytes: written and read exactly.
#![tactic(auto)]

mod fault;
mod forms;
mod laws;
mod reading;
mod record;
mod writing;

pub use fault::FileFault;
pub use laws::one_spelling;
pub use reading::files::decode;
pub use record::Rec;
pub use writing::files::encode;
