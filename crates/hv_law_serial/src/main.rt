//! The serial history of a script: the book that one thread makes. The program asks for its laws and prints nothing.
#![tactic(auto)]

mod laws;

use crate::laws::{script_history, serial_history, worked_by_hand};

fn main() {
    serial_history();
    script_history();
    worked_by_hand();
}
