//! Why a script was refused, on standard error.
use hv_base::NoMemory;
use hv_script::{
    Item, MAX_NAME, MAX_SCRIPT, MAX_SESSIONS, MAX_STATEMENTS, MAX_TEXT, ScriptFault, cut_script,
    is_directive, read_actions,
};
use std::alloc::Global;
use std::str;

/// A directive of a script.
#[derive(Clone, Copy)]
enum Directive<'a> {
    Session(&'a [u8]),
    Hold,
    Go(&'a [u8]),
    /// One that leaves the sessions as they are.
    Plain,
    Unknown,
}

/// A session whose statement is held, and the line of its hold.
#[derive(Clone, Copy)]
struct Held<'a> {
    session: &'a [u8],
    line: u64,
}

/// The sessions of a script between two of its items.
#[derive(Drop)]
struct Sessions<'a> {
    names: Vec<&'a [u8]>,
    current: &'a [u8],
    statements: usize,
    /// The line of a hold whose statement is to come.
    pending: Option<u64>,
    held: Vec<Held<'a>>,
}

fn is_trail(byte: u8) -> bool {
    matches!(byte, b' ' | b'\t' | b'\r')
}

/// What of a directive counts.
fn trimmed(bytes: &[u8]) -> &[u8] {
    let mut kept = bytes;
    for _ in 0..bytes.len() {
        match kept.split_last() {
            Some((last, front)) if is_trail(*last) => kept = front,
            _ => break,
        }
    }
    kept
}

fn is_name(name: &[u8]) -> bool {
    !name.is_empty()
        && name.len() <= MAX_NAME
        && name
            .iter()
            .all(|byte| byte.is_ascii_alphanumeric() || *byte == b'_')
}

fn is_hold(line: &[u8]) -> bool {
    line == b"!hold start".as_slice()
        || line == b"!hold read".as_slice()
        || line == b"!hold commit".as_slice()
}

fn is_plain(line: &[u8]) -> bool {
    line == b"!compact".as_slice() || line == b"!clean".as_slice() || line == b"!barrier".as_slice()
}

fn read_directive(line: &[u8]) -> Directive<'_> {
    match (line.strip_prefix(b"!session "), line.strip_prefix(b"!go ")) {
        (Some(name), _) if is_name(name) => Directive::Session(name),
        (_, Some(name)) if is_name(name) => Directive::Go(name),
        _ if is_hold(line) => Directive::Hold,
        _ if is_plain(line) => Directive::Plain,
        _ => Directive::Unknown,
    }
}

impl<'a> Sessions<'a> {
    fn is_held(&self, name: &[u8]) -> bool {
        self.held.iter().any(|held| held.session == name)
    }

    fn knows(&self, name: &[u8]) -> bool {
        self.names.iter().any(|other| *other == name)
    }

    /// Why a statement of so many bytes may not stand here.
    fn statement_fault(&self, length: usize) -> Option<&'static str> {
        if length > MAX_TEXT {
            Some("the statement has more than 32768 bytes")
        } else if self.statements >= MAX_STATEMENTS {
            Some("the script has more than 10000 statements")
        } else if self.is_held(self.current) {
            Some("the statement is of a session that is held: '!go' lets it go on")
        } else {
            None
        }
    }

    /// Why a directive may not stand here.
    fn directive_fault(&self, found: Directive<'_>) -> Option<&'static str> {
        match found {
            Directive::Unknown => Some("there is no such directive"),
            _ if self.pending.is_some() => Some("it stands between a hold and its statement"),
            Directive::Session(name) if !self.knows(name) && self.names.len() >= MAX_SESSIONS => {
                Some("the script has more than 16 sessions")
            }
            Directive::Go(name) if !self.is_held(name) => Some("that session isn't held"),
            _ => None,
        }
    }

    fn pass_statement(&mut self) -> Result<(), NoMemory> {
        self.statements = self.statements.saturating_add(1);
        if let Some(line) = self.pending.take() {
            self.held.push(Held {
                session: self.current,
                line,
            })?;
        }
        Ok(())
    }

    fn pass_directive(&mut self, found: Directive<'a>, line: u64) -> Result<(), NoMemory> {
        match found {
            Directive::Session(name) => {
                if !self.knows(name) {
                    self.names.push(name)?;
                }
                self.current = name;
            }
            Directive::Hold => self.pending = Some(line),
            Directive::Go(name) => self.held.retain(|held| held.session != name),
            Directive::Plain | Directive::Unknown => {}
        }
        Ok(())
    }

    /// Passes an item, or says why it may not stand here.
    fn pass(&mut self, item: &'a Item) -> Result<Option<&'static str>, NoMemory> {
        let bytes = item.bytes.as_slice();
        if is_directive(bytes) {
            let found = read_directive(trimmed(bytes));
            let fault = self.directive_fault(found);
            if fault.is_none() {
                self.pass_directive(found, item.line)?;
            }
            Ok(fault)
        } else {
            let fault = self.statement_fault(bytes.len());
            if fault.is_none() {
                self.pass_statement()?;
            }
            Ok(fault)
        }
    }

    /// Whether the hold on a line is to be released still.
    fn is_unreleased(&self, line: u64) -> bool {
        self.pending == Some(line) || self.held.iter().any(|held| held.line == line)
    }
}

/// Why an item may not stand where it does, and its text where it is a directive.
#[derive(Clone, Copy)]
struct ItemFault<'a> {
    why: &'static str,
    shown: &'a str,
}

/// The text of a directive.
fn shown_of(bytes: &[u8]) -> &str {
    if is_directive(bytes) {
        str::from_utf8(trimmed(bytes)).unwrap_or("")
    } else {
        ""
    }
}

/// The sessions before the first item.
fn first_sessions<'a>(alloc: Global) -> Result<Sessions<'a>, NoMemory> {
    let mut names = Vec::new(alloc);
    names.push(b"main".as_slice())?;
    Ok(Sessions {
        names,
        current: b"main",
        statements: 0,
        pending: None,
        held: Vec::new(alloc),
    })
}

/// Why an item on the line may not stand there.
fn item_fault<'a>(
    alloc: Global,
    items: &'a [Item],
    line: u64,
) -> Result<Option<ItemFault<'a>>, NoMemory> {
    let mut sessions = first_sessions(alloc)?;
    for item in items {
        if let Some(why) = sessions.pass(item)? {
            if item.line == line {
                let shown = shown_of(item.bytes.as_slice());
                return Ok(Some(ItemFault { why, shown }));
            }
        }
    }
    Ok(if sessions.is_unreleased(line) {
        Some(ItemFault {
            why: "that hold has no '!go'",
            shown: "",
        })
    } else {
        None
    })
}

/// The place of the first byte that isn't UTF-8.
fn broken_byte(script: &[u8]) -> Option<usize> {
    let front = script.get(..MAX_SCRIPT).unwrap_or(script);
    match str::from_utf8(front) {
        Ok(_) => None,
        Err(fault) => Some(fault.valid_up_to()),
    }
}

/// The line on which a byte stands.
fn line_of(script: &[u8], place: usize) -> u64 {
    let front = script.get(..place).unwrap_or(script);
    let feeds = front.iter().filter(|byte| **byte == b'\n').count();
    (feeds as u64).saturating_add(1)
}

/// Says why the line was refused.
fn tell_line<R: Eprint>(rt: &R, alloc: Global, script: &[u8], line: u64) -> Result<(), NoMemory> {
    if let Some(place) = broken_byte(script) {
        if line_of(script, place) == line {
            let _ = eprintln!(rt; "hive: line {line}: byte {place} of the script isn't UTF-8");
            return Ok(());
        }
    }
    if script.len() > MAX_SCRIPT && line_of(script, MAX_SCRIPT) == line {
        let _ = eprintln!(rt; "hive: line {line}: the script has more than 16 MiB");
        return Ok(());
    }
    let cut = cut_script(alloc, script)?;
    if let Some(ItemFault { why, shown }) = item_fault(alloc, cut.items.as_slice(), line)? {
        let space = if shown.is_empty() { "" } else { ": " };
        let _ = eprintln!(rt; "hive: line {line}: {why}{space}{shown}");
    }
    Ok(())
}

/// Says why a script was refused.
pub fn tell_script_fault<R: Eprint>(rt: &R, alloc: Global, script: &[u8]) -> Result<(), NoMemory> {
    match read_actions(alloc, script) {
        Err(ScriptFault::Refused { line }) => tell_line(rt, alloc, script, line),
        Err(ScriptFault::NoMemory) => Err(NoMemory),
        Ok(_) => Ok(()),
    }
}
