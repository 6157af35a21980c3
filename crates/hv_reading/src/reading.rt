//! A text as a statement.

ghost use Rattle.std.specs.Prelude.{◌≡◌, Some, IfOk, IfErr};
ghost use Rattle.hv_grammar.specs.Texts.{tree_of};
ghost use Rattle.hv_built.specs.Running.{Runs};
ghost use Rattle.hv_reading.specs.Faults.{IsFaultOf, IsRefusalOf};
ghost use Rattle.hv_reading.specs.Without.{RunsBut};

use crate::fault::TextFault;
use hv_ast::{Stmt, discard};
use hv_base::Text;
use hv_built::is_built;
use hv_lex::lex;
use hv_parse_stmt::{is_set, parse_set, parse_stmt};
use hv_values_text::{Unread, read_values, skim_values};
use std::alloc::Global;

/// The statement that a text of any form is: a SET text by its own rule, another by its tokens.
fn read_any(alloc: Global, text: &Text) -> Result<Stmt, TextFault>
    ensures tree { IfOk result (λ tree. tree_of text.now ≡ Some tree) }
    ensures fault { IfErr result (λ fault. IsFaultOf fault text.now) }
{
    if is_set(text) {
        return Ok(parse_set(text, alloc)?);
    }
    let tokens = lex(alloc, text)?;
    Ok(parse_stmt(&tokens, alloc)?)
}

/// The statement that a text is, of any form of the language. The error of a SET text is `Syntax`;
/// of another the first fault of its characters by place, else `Nesting` at the first token that
/// opens a level too many, else `Syntax`. Most of a journal is INSERTs of written out values, which are
/// read from their bytes.
pub fn read_text(alloc: Global, text: &Text) -> Result<Stmt, TextFault>
    ensures tree { IfOk result (λ tree. tree_of text.now ≡ Some tree) }
    ensures fault { IfErr result (λ fault. IsFaultOf fault text.now) }
{
    match read_values(alloc, text) {
        Ok(tree) => Ok(tree),
        Err(Unread::Unknown) => read_any(alloc, text),
        Err(Unread::NoMemory) => Err(TextFault::NoMemory),
    }
}

/// The statement that a text is, where it is of a form that runs today. The error is the text's
/// fault, and `Syntax` for a statement of another form.
pub fn read_statement(alloc: Global, text: &Text) -> Result<Stmt, TextFault>
    ensures tree { IfOk result (Runs text.now) }
    ensures fault { IfErr result (λ fault. IsRefusalOf fault text.now) }
{
    let tree = read_text(alloc, text)?;
    if is_built(&tree) {
        return Ok(tree);
    }
    discard(tree);
    Err(TextFault::Syntax)
}

/// The statement that a text is, with all that it says.
fn read_all(alloc: Global, text: &Text) -> Result<Stmt, TextFault>
    ensures tree { IfOk result (RunsBut text.now) }
    ensures fault { IfErr result (λ fault. IsRefusalOf fault text.now) }
{
    match read_statement(alloc, text) {
        Ok(tree) => Ok(tree),
        Err(fault) => Err(fault),
    }
}

/// The statement that a text is, as `read_statement`, but without the rows that an INSERT writes out: of these, which
/// are most of a journal, no tree is made. Each is tested all the same.
pub fn skim_statement(alloc: Global, text: &Text) -> Result<Stmt, TextFault>
    ensures tree { IfOk result (RunsBut text.now) }
    ensures fault { IfErr result (λ fault. IsRefusalOf fault text.now) }
{
    match skim_values(alloc, text) {
        Ok(tree) => Ok(tree),
        Err(Unread::Unknown) => read_all(alloc, text),
        Err(Unread::NoMemory) => Err(TextFault::NoMemory),
    }
}
