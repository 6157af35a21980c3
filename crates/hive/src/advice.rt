//! What is said on standard error: the cause of a status, or what to do.
use hv_files::Cause;
use hv_script::read_run;

/// How the program is called.
fn usage<R: Eprint>(rt: &R) {
    let _ = eprintln!(rt;
        "usage: hive FOLDER run [--workers N] < SCRIPT
Runs the statements of SCRIPT over the store in FOLDER, which is made where it isn't there yet.
N, from 1 to 8, is on how many threads a query may work.
Replies go to standard output. The status is 0, or 1 where a statement was refused; above 1 the run stopped.
FOLDER is no empty word and doesn't begin with '-'; the folder in which it is to stand must be there.
example: echo 'CREATE TABLE t (a INT); INSERT INTO t VALUES (1); SELECT * FROM t' | hive warehouse run"
    );
}

/// The cause of a failure of the store, in words.
fn cause_text(cause: Option<Cause>) -> &'static str {
    match cause {
        Some(Cause::NoParent) => "the folder in which it is to stand isn't there",
        Some(Cause::NotAFolder) => "where a folder is to be stands none, but a file or a link",
        Some(Cause::NotAFile) => "where a file is to be stands none, but a folder or a link",
        Some(Cause::NotPermitted) => "reading or writing there isn't permitted",
        Some(Cause::InUse) => "it is in use by another run, or was made meanwhile",
        Some(Cause::Exchanged) => {
            "it isn't the one that this run has opened: the folder, its journal or its tables was moved, exchanged, taken away, or made by another run"
        }
        Some(Cause::NoJournal) => {
            "tables stand in it, and the journal that tells of them is missing or empty: put it back, or run over a new folder"
        }
        Some(Cause::Full) => "the device is full",
        Some(Cause::ClosedStream) => "a standard stream of this program is closed",
        Some(Cause::TooManyOpen) => "too many files are open: raise the limit ('ulimit -n')",
        Some(Cause::LongPath) => {
            "its path, or that of what is to stand in it, is too long: use a shorter one"
        }
        Some(Cause::Gone) => "a folder there is gone, or takes no files",
        Some(Cause::Unsynced) => "an earlier change isn't sure to be kept",
        Some(Cause::Other) | None => "the device failed",
    }
}

/// Says why the store failed.
fn blame_store<R: Eprint>(rt: &R, folder: &str, cause: Option<Cause>) {
    let text = cause_text(cause);
    let _ = eprintln!(rt; "hive: the store in the folder {folder} can't be used: {text}");
}

/// Says before the script is read that it is read to its end, where it comes from a terminal.
pub fn announce<R: Eprint>(rt: &R, words: &[String], terminal: bool) {
    if terminal && read_run(words).is_some() {
        let _ = eprintln!(rt; "hive: the script is read to its end: finish it with Ctrl-D");
    }
}

/// What stands after the longest front of the words that is a command.
fn left_of(words: &[String]) -> &[String] {
    let mut left = words;
    for count in 1..=words.len() {
        if let (Some(front), Some(rest)) = (words.get(..count), words.get(count..)) {
            if read_run(front).is_some() {
                left = rest;
            }
        }
    }
    left
}

/// Says which of the words after a command isn't as it should be.
fn blame_option<R: Eprint>(rt: &R, left: &[String]) {
    match left {
        [] => {}
        [option] if option.as_str() == "--workers" => {
            let _ = eprintln!(rt; "hive: after '{option}' a number from 1 to 8 is missing");
        }
        [option, number, ..] if option.as_str() == "--workers" => {
            let _ = eprintln!(rt;
                "hive: '{number}' can't stand after '{option}': one number from 1 to 8 can, once"
            );
        }
        [word, ..] if word.starts_with("--workers=") => {
            let _ = eprintln!(rt;
                "hive: '{word}' can't stand there: it is one number from 1 to 8, given once"
            );
        }
        [word, ..] => {
            let _ = eprintln!(rt; "hive: '{word}' is a word too many");
        }
    }
}

/// Says which word isn't as it should be.
pub fn blame_words<R: Eprint>(rt: &R, words: &[String]) {
    match words {
        [] => {
            let _ = eprintln!(rt; "hive: the command is missing: 'run' is the one that runs");
        }
        [command, ..] if command.as_str() != "run" => {
            let _ = eprintln!(rt; "hive: '{command}' is no command that runs: 'run' is the one");
        }
        _ => blame_option(rt, left_of(words)),
    }
}

/// Says why a run ended with this status, or what to do.
pub fn advise<R: Eprint>(rt: &R, folder: &str, status: u8, cause: Option<Cause>) {
    match status {
        2 => usage(rt),
        3 => {
            let _ = eprintln!(rt; "hive: the script could not be read from standard input");
        }
        4 => {
            let _ = eprintln!(rt; "hive: the replies could not be written to standard output");
        }
        5 => blame_store(rt, folder, cause),
        6 => {
            let _ = eprintln!(rt;
                "hive: the journal in {folder} is damaged at that byte, or was written by a later version, and nothing was changed: restore the folder, or run over a new one"
            );
        }
        7 => {
            let _ = eprintln!(rt; "hive: out of memory");
        }
        8 => {
            let _ = eprintln!(rt;
                "hive: no statement of the script was run: mend the line, and run it again"
            );
        }
        9 => {
            let _ = eprintln!(rt;
                "hive: the journal in {folder} has no room for another run, and nothing was changed: run over a new folder"
            );
        }
        _ => {}
    }
}
