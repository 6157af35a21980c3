//! Why statements were refused, on standard error: a line for each, with its place in the script.
use crate::owners::{Owner, owners_of, refusal_of};
use crate::watching::Reply;
use hv_base::{NoMemory, Refusal, Text};
use hv_script::{Action, ScriptFault, Statement, cut_script, is_directive, read_actions};
use std::alloc::Global;

/// The statements of a script, each with the line on which it begins.
#[derive(Drop)]
struct Lines<'a> {
    statements: Vec<&'a Statement>,
    lines: Vec<u64>,
}

/// What to do where a text is no statement that runs.
fn syntax_advice(text: &Text) -> &'static str {
    if text.as_str().is_empty() {
        return "no statement stands before that ';'";
    }
    "docs/LANGUAGE.md has the forms, docs/FROM_HIVE.md what to write for others"
}

/// What to do, in a few words.
fn advice(refusal: Refusal) -> &'static str {
    match refusal {
        Refusal::BadCharacter => "correct the text at that byte of the statement",
        Refusal::OpenString => "close the string or the backquote",
        Refusal::WideNumber => "write a smaller number",
        Refusal::Syntax => "docs/LANGUAGE.md has the forms that run",
        Refusal::Nesting => "nest less deep",
        Refusal::NoTable => "create the table, or correct its name",
        Refusal::NoColumn => "correct the name",
        Refusal::Ambiguous => "qualify the name, or give another alias",
        Refusal::BadType => "CAST it, or write another",
        Refusal::BadCount => "give each column one value",
        Refusal::NotGrouped => "put the column into GROUP BY or into an aggregate",
        Refusal::FixedColumn => "delete the rows and insert them again",
        Refusal::MergeClauses =>
            "one UPDATE, one DELETE and, last, one INSERT at most; of two WHEN MATCHED the first has AND",
        Refusal::TableExists => "choose another name, or write IF NOT EXISTS",
        Refusal::Limit => "make fewer, or leave the property out",
        Refusal::Conflict | Refusal::Aborted => "do the statement again",
        Refusal::JournalFull => "go on in a new folder",
        Refusal::MergeTwice => "let one source row match each row of the target",
        Refusal::Blocked => "do it again when that transaction has ended",
        Refusal::ReadFault | Refusal::WriteFault => "do it again; if it stays, look at the disk",
        Refusal::NoMemory => "write a smaller statement",
        Refusal::RowLimit => "shorten the strings of the row",
        Refusal::PartitionLimit => "split the statement, or shorten the partition's values",
        Refusal::Damaged => "restore that file",
        _ => "look there",
    }
}

impl<'a> Lines<'a> {
    fn statement(&self, number: u64) -> Option<(&'a Statement, u64)> {
        let place = (number as usize).checked_sub(1)?;
        Some((*self.statements.get(place)?, *self.lines.get(place)?))
    }

    /// Where a statement stands, in words.
    fn place(&self, alloc: Global, number: u64) -> Result<String, NoMemory> {
        let Some((statement, line)) = self.statement(number) else {
            return Ok(format!(in alloc; "statement {number}")?);
        };
        let session = statement.session.name.as_str();
        if session == "main" {
            Ok(format!(in alloc; "line {line}, statement {number}")?)
        } else {
            Ok(format!(in alloc; "line {line}, statement {number}, session {session}")?)
        }
    }

    /// Where the statement of a reply stands.
    fn places(&self, alloc: Global, owner: Owner) -> Result<String, NoMemory> {
        let mut text = self.place(alloc, owner.number.unwrap_or(0))?;
        if let Some(other) = owner.other {
            text.push_str(", or ")?;
            text.push_str(self.place(alloc, other)?.as_str())?;
        }
        Ok(text)
    }

    /// What to do about a reply, in a few words.
    fn advice(&self, owner: Owner, reply: &str) -> &'static str {
        let statement = self.statement(owner.number.unwrap_or(0));
        match (refusal_of(reply), statement) {
            (Some(Refusal::Syntax), Some((statement, _))) => syntax_advice(&statement.text),
            (Some(refusal), _) => advice(refusal),
            (None, _) => "look there",
        }
    }
}

/// The lines on which the statements of a script begin.
fn lines_of(alloc: Global, script: &[u8]) -> Result<Vec<u64>, NoMemory> {
    let cut = cut_script(alloc, script)?;
    let mut lines = Vec::new(alloc);
    for item in cut.items.as_slice() {
        if !is_directive(item.bytes.as_slice()) {
            lines.push(item.line)?;
        }
    }
    Ok(lines)
}

fn statements_of<'a>(alloc: Global, actions: &'a [Action]) -> Result<Vec<&'a Statement>, NoMemory> {
    let mut statements = Vec::new(alloc);
    for action in actions {
        if let Action::Run(statement) = action {
            statements.push(statement)?;
        }
    }
    Ok(statements)
}

/// Says one line for each refusal, and how many there were.
fn tell_all<R: Eprint>(
    rt: &R,
    alloc: Global,
    script: &[u8],
    actions: &[Action],
    replies: &[Reply],
) -> Result<(), NoMemory> {
    let lines = Lines {
        statements: statements_of(alloc, actions)?,
        lines: lines_of(alloc, script)?,
    };
    let owners = owners_of(alloc, actions, replies)?;
    let (mut refused, mut all) = (0u64, 0u64);
    for (owner, reply) in owners.iter().zip(replies) {
        if owner.number.is_some() {
            all = all.saturating_add(1);
        }
        if let Reply::Refused(text) = reply {
            refused = refused.saturating_add(1);
            let place = lines.places(alloc, *owner)?;
            let what = lines.advice(*owner, text.as_str());
            let _ = eprintln!(rt; "{place}: {text}: {what} (docs/REFUSALS.md)");
        }
    }
    let _ = eprintln!(rt; "{refused} of {all} statements were refused");
    Ok(())
}

fn is_refused(replies: &[Reply]) -> bool {
    replies
        .iter()
        .any(|reply| matches!(reply, Reply::Refused(_)))
}

/// Says why statements were refused, where some were.
pub fn tell_refusals<R: Eprint>(
    rt: &R,
    alloc: Global,
    script: &[u8],
    replies: &[Reply],
) -> Result<(), NoMemory> {
    if !is_refused(replies) {
        return Ok(());
    }
    match read_actions(alloc, script) {
        Ok(actions) => tell_all(rt, alloc, script, actions.as_slice(), replies),
        Err(ScriptFault::NoMemory) => Err(NoMemory),
        Err(ScriptFault::Refused { .. }) => Ok(()),
    }
}
