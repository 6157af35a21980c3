//! Where the rows of a change go: partitions and buckets.
#![tactic(auto)]

pub use hv_rowfile;

mod buckets;
mod counts;
mod fault;
mod files;
mod held;
mod laws;
mod numbers;
mod partitions;
mod placed;
mod runs;

pub use buckets::bucket_of;
pub use counts::touches;
pub use fault::RouteFault;
pub use files::{OutFile, route};
pub use laws::{
    files_have_rows, files_rise, rows_are_numbered, text_says_values, texts_say_values,
    touches_are_of_rows, touches_rise, typed_values_are_said,
};
pub use numbers::number_rows;
pub use partitions::{partition_text, partition_values};
