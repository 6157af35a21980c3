//! Prints the value of each expression of the input. A line has a function and its operands with tabs
//! between; what is to be printed comes from elsewhere.
#![tactic(auto)]

mod expressions;
mod functions;
mod operands;

use hv_base::{List, NoMemory};
use hv_eval::eval;
use hv_value::{Row, print_value};
use std::alloc::Global;
use std::io;
use std::io::{BufRead, BufReader};

/// The printed value of the line's expression on the row.
fn printed(alloc: Global, line: &str, row: &Row) -> Result<Vec<u8>, NoMemory> {
    let expr = expressions::expression(alloc, line)?;
    let value = eval(alloc, expr.get(), row)?;
    let mut bytes = Vec::new(alloc);
    print_value(&value, &mut bytes)?;
    Ok(bytes)
}

fn row(alloc: Global) -> Result<Row, NoMemory> {
    let mut values = Vec::with_capacity(alloc, 6)?;
    for word in ["7", "'row", "12345678901L", "@2020-02-29", "[1,2,3", "TRUE"] {
        values.push(operands::value(alloc, word)?)?;
    }
    Ok(Row {
        values: List::from_vec(values),
    })
}

fn main(rt: HostRuntime) -> io::Result<()> {
    let alloc = rt.alloc();
    let Ok(row) = row(alloc) else {
        return println!(rt; "no memory");
    };
    for line in BufReader::new(alloc, rt.reader())?.lines(alloc) {
        let Ok(bytes) = printed(alloc, line?.as_str(), &row) else {
            return println!(rt; "no memory");
        };
        match str::from_utf8(&bytes) {
            Ok(text) => println!(rt; "{text}")?,
            Err(_) => println!(rt; "no text")?,
        }
    }
    Ok(())
}
