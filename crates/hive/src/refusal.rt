ghost use Rattle.hive.specs.Refusal.{Ends};

use crate::advice::advise;
use hv_base::{Sink, write_all};
use hv_files::Cause;

/// Why a run did not come to the command.
#[derive(Clone, Copy)]
pub enum Refusal {
    /// There is no first word, or it is empty or begins with `-`, or a word isn't a text.
    BadWords,
    /// The first word asks for the version, which is no command.
    Version,
    /// The folder can't be opened.
    Store(Cause),
    NoMemory,
}

/// Says why a run over a folder was refused, bad words on the sink too, and gives the status.
pub fn refuse<R: Eprint, O: Sink>(rt: &R, sink: &mut O, folder: &str, refusal: Refusal) -> u8
    ensures { Ends refusal (O.written sink.old) (O.written sink.new) result }
{
    match refusal {
        Refusal::BadWords => {
            let status = refuse_words(sink);
            advise(rt, folder, status, None);
            status
        }
        Refusal::Version => {
            let _ = eprintln!(rt;
                "hive 0.1 (of which commit it is, and whether it is proved: ./hive-run --version)"
            );
            let status = refuse_words(sink);
            advise(rt, folder, status, None);
            status
        }
        Refusal::Store(cause) => {
            advise(rt, folder, 5, Some(cause));
            5
        }
        Refusal::NoMemory => {
            advise(rt, folder, 7, None);
            7
        }
    }
}

/// Says on the sink that the words are bad.
fn refuse_words<O: Sink>(sink: &mut O) -> u8
    ensures { Ends Refusal.BadWords (O.written sink.old) (O.written sink.new) result }
{
    match write_all(sink, b"hive: bad words\n") {
        Ok(()) => 2,
        Err(_) => 4,
    }
}
