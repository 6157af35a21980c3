//! Work on parts of a list by 1 to 8 workers, beside the same by one: counts of words, a sort, sums of parts; and two mappers
//! that wait for one another.
#![tactic(auto)]

mod meeting;
mod numbers;
mod words;

use std::io;

static WORKERS: [usize; 8] = [1, 2, 3, 4, 5, 6, 7, 8];

fn told(same: bool) -> &'static str {
    if same { "the same" } else { "others" }
}

fn main(rt: HostRuntime) -> io::Result<()> {
    let alloc = rt.alloc();
    let Ok(plain) = words::folded(alloc) else {
        return println!(rt; "no memory");
    };
    words::print_counts(&rt, plain.as_slice())?;
    for workers in &WORKERS {
        let workers = *workers;
        let counts = words::are_same(&rt, alloc, workers, &plain);
        let sorted = numbers::are_sorted(&rt, alloc, workers);
        let total = numbers::total(&rt, alloc, workers);
        match (counts, sorted, total) {
            (Ok(counts), Ok(sorted), Ok(total)) => println!(rt;
                "{workers} workers: counts {}, sorted {}, total {total}",
                told(counts),
                told(sorted)
            )?,
            _ => println!(rt; "no memory")?,
        }
    }
    match meeting::two_mappers_meet(&rt, alloc) {
        Ok(met) => println!(rt; "two mappers meet: {met:?}"),
        Err(_) => println!(rt; "no memory"),
    }
}
