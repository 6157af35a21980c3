ghost use Rattle.std.specs.Prelude.{◌≡◌, ◌<◌, false, IfOk, OnOk, option_map};
ghost use Rattle.std.specs.List.{filter};
ghost use Rattle.std.specs.Str.{IsUtf8};
ghost use Rattle.hv_script.specs.declared.script.TheConstants.{MAX_STATEMENTS};
ghost use Rattle.hv_script.specs.Actions.{action_for, least, place_of, session_in, stage_of_pending, statement_in};
ghost use Rattle.hv_script.specs.Standing.{after, first_standing, is_faulty, is_held, is_other, unreleased, with_held, with_session};

use crate::actions::{Action, Session, Statement};
use crate::kinds::Kind;
use crate::{Item, MAX_STATEMENTS, MAX_TEXT, earlier_of};
use hv_base::{Duplicate, NoMemory, Stage, Text};
use std::alloc::Global;
use std::marker::Model;

/// The most sessions of a script, `main` among them.
pub const MAX_SESSIONS: usize = 16;

/// A hold whose statement is to come, and its line.
#[derive(Clone, Copy)]
pub struct Pending {
    pub stage: Stage,
    pub line: u64,
}

/// A session whose statement is held, and the line of its hold.
#[derive(Drop)]
pub struct Held {
    pub session: Text,
    pub line: u64,
}

/// The sessions of a script between two of its items.
#[derive(Drop)]
pub struct Sessions {
    names: Vec<Text>,
    current: Text,
    statements: usize,
    pending: Option<Pending>,
    held: Vec<Held>,
}

impl Model for Sessions {
    ghost use Rattle.hv_script.specs.Standing.{Standing};

    ghost Value = { Standing };

    ghost view = { λ s. record { sessions = s.names.items; current = s.current; statements = s.statements; pending = s.pending; held = s.held.items } };
}

/// How many sessions were named before this one.
fn count_before(names: &[Text], name: &Text) -> usize
    ensures value { result ≡ place_of name.now names.now }
{
    for (place, other) in names.iter().enumerate() {
        if *other == *name {
            return place;
        }
    }
    names.len()
}

fn holds_session(held: &[Held], name: &Text) -> bool
    ensures value { result ≡ is_held name.now held.now }
{
    for other in held {
        if other.session == *name {
            return true;
        }
    }
    false
}

fn let_go(held: &mut Vec<Held>, name: &Text)
    ensures items { held.new.items ≡ filter (is_other name.now) held.old.items }
{
    held.retain(|other| other.session != *name);
}

/// The text of a statement. Which one it is of bytes that aren't UTF-8 doesn't matter: their script
/// is refused.
fn text_of(alloc: Global, bytes: &[u8]) -> Result<Text, NoMemory>
    ensures value { IfOk result (λ text. IsUtf8 bytes.now → text ≡ bytes.now) }
{
    match Text::from_utf8(Vec::from_slice(alloc, bytes)?) {
        Some(text) => Ok(text),
        None => Text::of(alloc, ""),
    }
}

impl Sessions {
    /// Before the first item.
    pub fn new(alloc: Global) -> Result<Sessions, NoMemory>
        ensures value { IfOk result (λ s. s ≡ first_standing) }
    {
        let main = Text::of(alloc, "main")?;
        let mut names = Vec::new(alloc);
        names.push(main.duplicate(alloc)?)?;
        Ok(Sessions {
            names,
            current: main,
            statements: 0,
            pending: None,
            held: Vec::new(alloc),
        })
    }

    /// Whether an item is refused.
    pub fn refuses(&self, item: &Item, kind: &Kind) -> bool
        ensures value { result ≡ is_faulty self.now item.now kind.now }
    {
        match kind {
            Kind::Statement => {
                item.bytes.len() > MAX_TEXT
                    || self.statements >= MAX_STATEMENTS
                    || holds_session(&self.held, &self.current)
            }
            Kind::Session(name) => {
                self.pending.is_some()
                    || (!self.names.contains(name) && self.names.len() >= MAX_SESSIONS)
            }
            Kind::Hold(_) => self.pending.is_some(),
            Kind::Go(name) => self.pending.is_some() || !holds_session(&self.held, name),
            Kind::Compact => self.pending.is_some(),
            Kind::Clean => self.pending.is_some(),
            Kind::Barrier => self.pending.is_some(),
            Kind::Unknown => true,
        }
    }

    fn session(&self, alloc: Global, name: &Text) -> Result<Session, NoMemory>
        ensures value { IfOk result (λ made. made ≡ session_in self.now name.now) }
    {
        Ok(Session {
            name: name.duplicate(alloc)?,
            place: count_before(&self.names, name) as u64,
        })
    }

    fn hold(&self) -> Option<Stage>
        ensures value { result ≡ option_map stage_of_pending self.now.pending }
    {
        match self.pending {
            Some(pending) => Some(pending.stage),
            None => None,
        }
    }

    fn statement(&self, alloc: Global, item: &Item) -> Result<Statement, NoMemory>
        requires room { self.now.statements < MAX_STATEMENTS }
        ensures value { IfOk result (λ made. IsUtf8 item.now.bytes → made ≡ statement_in self.now item.now) }
    {
        Ok(Statement {
            session: self.session(alloc, &self.current)?,
            number: self.statements as u64 + 1,
            text: text_of(alloc, item.bytes.as_slice())?,
            hold: self.hold(),
        })
    }

    /// What an item that isn't refused asks to be done.
    pub fn action(
        &self,
        alloc: Global,
        item: &Item,
        kind: &Kind,
    ) -> Result<Option<Action>, NoMemory>
        requires taken { is_faulty self.now item.now kind.now ≡ false }
        ensures value { IfOk result (λ made. IsUtf8 item.now.bytes → made ≡ action_for self.now item.now kind.now) }
    {
        match kind {
            Kind::Statement => Ok(Some(Action::Run(self.statement(alloc, item)?))),
            Kind::Session(name) => Ok(Some(Action::Announce(self.session(alloc, name)?))),
            Kind::Go(name) => Ok(Some(Action::Release(self.session(alloc, name)?))),
            Kind::Compact => Ok(Some(Action::Compact)),
            Kind::Clean => Ok(Some(Action::Clean)),
            Kind::Barrier => Ok(Some(Action::Barrier)),
            Kind::Hold(_) => Ok(None),
            Kind::Unknown => Ok(None),
        }
    }

    /// Holds the session's statement where a hold stands before it.
    fn hold_current(&mut self, alloc: Global) -> Result<(), NoMemory>
        ensures after { OnOk result (self.new ≡ record self.old { pending = None; held = with_held self.old.current self.old.pending self.old.held }) }
    {
        if let Some(pending) = self.pending.take() {
            self.held.push(Held {
                session: self.current.duplicate(alloc)?,
                line: pending.line,
            })?;
        }
        Ok(())
    }

    fn turn_to(&mut self, alloc: Global, name: Text) -> Result<(), NoMemory>
        ensures after { OnOk result (self.new ≡ record self.old { sessions = with_session name self.old.sessions; current = name }) }
    {
        if !self.names.contains(&name) {
            self.names.push(name.duplicate(alloc)?)?;
        }
        self.current = name;
        Ok(())
    }

    /// Goes behind an item that isn't refused.
    pub fn pass(&mut self, alloc: Global, item: &Item, kind: Kind) -> Result<(), NoMemory>
        requires taken { is_faulty self.old item.now kind ≡ false }
        ensures after { OnOk result (self.new ≡ after self.old item.now kind) }
    {
        match kind {
            Kind::Statement => {
                self.statements += 1;
                self.hold_current(alloc)
            }
            Kind::Session(name) => self.turn_to(alloc, name),
            Kind::Hold(stage) => {
                self.pending = Some(Pending {
                    stage,
                    line: item.line,
                });
                Ok(())
            }
            Kind::Go(name) => {
                let_go(&mut self.held, &name);
                Ok(())
            }
            Kind::Compact => Ok(()),
            Kind::Clean => Ok(()),
            Kind::Barrier => Ok(()),
            Kind::Unknown => Ok(()),
        }
    }

    /// The first line of a hold that is still to be released.
    pub fn first_unreleased(&self) -> Option<u64>
        ensures value { result ≡ least (unreleased self.now) }
    {
        let mut line = match self.pending {
            Some(pending) => Some(pending.line),
            None => None,
        };
        for held in &self.held {
            line = earlier_of(line, Some(held.line));
        }
        line
    }
}
