ghost use Rattle.std.specs.Prelude.{◌≡◌, ◌≤◌, map, IfSome};
ghost use Rattle.std.specs.String.{string_bytes};
ghost use Rattle.hv_script.specs.Words.{command_of, digit_of, first_said, form_of, four_digits, number_of, run_of, said_behind, said_of_all, settled, with_compactors, counted, said_by, with_number, with_setting, with_word, with_workers, within};

/// The workers of a command that names none.
pub const DEFAULT_WORKERS: usize = 4;

/// The most workers of a command.
pub const MAX_WORKERS: usize = 8;

/// The compactors of a command that names none.
pub const DEFAULT_COMPACTORS: usize = 2;

/// The most compactors of a command.
pub const MAX_COMPACTORS: usize = 4;

/// The largest number of a script that is made for measuring.
pub const MAX_BENCH: usize = 1_000;

/// What the program is asked to do.
#[derive(Clone, Copy, Debug, PartialEq, Eq)]
pub enum Command {
    /// The statements of a script, one after another.
    Run {
        /// On how many threads a query may work.
        workers: usize,
    },
    /// The sessions of a script beside each other.
    Serve {
        /// On how many threads a query may work.
        workers: usize,
        /// How many threads compact.
        compactors: usize,
    },
    /// A script that is made for measuring, served.
    Bench {
        /// How large it is.
        number: usize,
        /// On how many threads a query may work.
        workers: usize,
        /// How many threads compact.
        compactors: usize,
    },
}

/// Which command the first word names.
#[derive(Clone, Copy)]
pub enum Form {
    Run,
    Serve,
    Bench,
}

/// What an option sets.
#[derive(Clone, Copy)]
pub enum Setting {
    Workers,
    Compactors,
}

/// What the words said so far.
#[derive(Clone, Copy)]
pub struct Said {
    pub form: Form,
    pub number: Option<usize>,
    pub workers: Option<usize>,
    pub compactors: Option<usize>,
    /// The option whose value is the next word.
    pub awaited: Option<Setting>,
}

#[tactic(auto, unfolding(crate::specs::Words::form_of))]
fn form_of(word: &[u8]) -> Option<Form>
    ensures value { result ≡ form_of word.now }
{
    if word == b"run".as_slice() {
        Some(Form::Run)
    } else if word == b"serve".as_slice() {
        Some(Form::Serve)
    } else if word == b"bench".as_slice() {
        Some(Form::Bench)
    } else {
        None
    }
}

fn digit_of(byte: u8) -> Option<usize>
    ensures value { result ≡ digit_of byte }
    ensures small { IfSome result (λ digit. digit ≤ 9) }
{
    if b'0' <= byte && byte <= b'9' {
        Some((byte - b'0') as usize)
    } else {
        None
    }
}

#[tactic(auto, unfolding(crate::specs::Words::four_digits))]
fn four_digits(a: u8, b: u8, c: u8, d: u8) -> Option<usize>
    ensures value { result ≡ four_digits a b c d }
{
    let thousands = digit_of(a)?;
    let hundreds = digit_of(b)?;
    let tens = digit_of(c)?;
    let ones = digit_of(d)?;
    Some(thousands * 1000 + hundreds * 100 + tens * 10 + ones)
}

/// The number of one to four digits, None of another word.
#[tactic(auto, unfolding(crate::specs::Words::number_of))]
fn number_of(word: &[u8]) -> Option<usize>
    ensures value { result ≡ number_of word.now }
{
    match word {
        [d] => four_digits(b'0', b'0', b'0', *d),
        [c, d] => four_digits(b'0', b'0', *c, *d),
        [b, c, d] => four_digits(b'0', *b, *c, *d),
        [a, b, c, d] => four_digits(*a, *b, *c, *d),
        _ => None,
    }
}

/// The number of a word, from 1 to this many.
fn number_up_to(most: usize, word: &[u8]) -> Option<usize>
    ensures value { result ≡ within most (number_of word.now) }
{
    let number = number_of(word)?;
    if 1 <= number && number <= most {
        Some(number)
    } else {
        None
    }
}

impl Said {
    fn first(form: Form) -> Said
        ensures value { result ≡ first_said form }
    {
        Said {
            form,
            number: None,
            workers: None,
            compactors: None,
            awaited: None,
        }
    }

    #[tactic(auto, unfolding(crate::specs::Words::with_workers))]
    fn with_workers(self, value: &[u8]) -> Option<Said>
        ensures value { result ≡ with_workers self value.now }
    {
        match self.workers {
            Some(_) => None,
            None => Some(Said {
                workers: Some(number_up_to(MAX_WORKERS, value)?),
                awaited: None,
                ..self
            }),
        }
    }

    #[tactic(auto, unfolding(crate::specs::Words::with_compactors))]
    fn with_compactors(self, value: &[u8]) -> Option<Said>
        ensures value { result ≡ with_compactors self value.now }
    {
        match self.compactors {
            Some(_) => None,
            None => Some(Said {
                compactors: Some(number_up_to(MAX_COMPACTORS, value)?),
                awaited: None,
                ..self
            }),
        }
    }

    /// Behind an option with this value.
    #[tactic(auto, unfolding(crate::specs::Words::with_setting))]
    fn with_setting(self, setting: Setting, value: &[u8]) -> Option<Said>
        ensures value { result ≡ with_setting self setting value.now }
    {
        match setting {
            Setting::Workers => self.with_workers(value),
            Setting::Compactors => match self.form {
                Form::Run => None,
                Form::Serve => self.with_compactors(value),
                Form::Bench => self.with_compactors(value),
            },
        }
    }

    #[tactic(auto, unfolding(crate::specs::Words::counted))]
    fn counted(self, word: &[u8]) -> Option<Said>
        ensures value { result ≡ counted self word.now }
    {
        match self.number {
            Some(_) => None,
            None => Some(Said {
                number: Some(number_up_to(MAX_BENCH, word)?),
                ..self
            }),
        }
    }

    #[tactic(auto, unfolding(crate::specs::Words::with_number))]
    fn with_number(self, word: &[u8]) -> Option<Said>
        ensures value { result ≡ with_number self word.now }
    {
        match self.form {
            Form::Run => None,
            Form::Serve => None,
            Form::Bench => self.counted(word),
        }
    }

    /// Behind a word that is no option's value.
    #[tactic(auto, unfolding(crate::specs::Words::with_word))]
    fn with_word(self, word: &[u8]) -> Option<Said>
        ensures value { result ≡ with_word self word.now }
    {
        if word == b"--workers".as_slice() {
            Some(Said {
                awaited: Some(Setting::Workers),
                ..self
            })
        } else if word == b"--compactors".as_slice() {
            Some(Said {
                awaited: Some(Setting::Compactors),
                ..self
            })
        } else if let Some(value) = word.strip_prefix(b"--workers=") {
            self.with_setting(Setting::Workers, value)
        } else if let Some(value) = word.strip_prefix(b"--compactors=") {
            self.with_setting(Setting::Compactors, value)
        } else {
            self.with_number(word)
        }
    }

    /// Behind one word more.
    fn behind(self, word: &[u8]) -> Option<Said>
        ensures value { result ≡ said_behind self word.now }
    {
        match self.awaited {
            Some(setting) => self.with_setting(setting, word),
            None => self.with_word(word),
        }
    }

    fn behind_all(self, words: &[String]) -> Option<Said>
        ensures value { result ≡ said_of_all self (map string_bytes words.now) }
    {
        let mut said = self;
        for word in words {
            said = said.behind(word.as_bytes())?;
        }
        Some(said)
    }

    /// The command, where nothing is missing.
    #[tactic(auto, unfolding(crate::specs::Words::settled))]
    fn settle(self) -> Option<Command>
        ensures value { result ≡ settled self }
    {
        let workers = self.workers.unwrap_or(DEFAULT_WORKERS);
        let compactors = self.compactors.unwrap_or(DEFAULT_COMPACTORS);
        match self.awaited {
            Some(_) => None,
            None => match self.form {
                Form::Run => Some(Command::Run { workers }),
                Form::Serve => Some(Command::Serve {
                    workers,
                    compactors,
                }),
                Form::Bench => Some(Command::Bench {
                    number: self.number?,
                    workers,
                    compactors,
                }),
            },
        }
    }
}

#[tactic(auto, unfolding(crate::specs::Words::said_by))]
fn said_by(word: &[u8], words: &[String]) -> Option<Said>
    ensures value { result ≡ said_by word.now (map string_bytes words.now) }
{
    Said::first(form_of(word)?).behind_all(words)
}

/// The command that these words are. None where they are none.
#[tactic(auto, unfolding(crate::specs::Words::command_of))]
pub fn read_words(words: &[String]) -> Option<Command>
    ensures value { result ≡ command_of (map string_bytes words.now) }
{
    match words {
        [] => None,
        [word, rest @ ..] => said_by(word.as_bytes(), rest)?.settle(),
    }
}

/// The command that these words are, where it is built: `run`, so far.
#[tactic(auto, unfolding(crate::specs::Words::run_of))]
pub fn read_run(words: &[String]) -> Option<Command>
    ensures value { result ≡ run_of (map string_bytes words.now) }
{
    match read_words(words)? {
        Command::Run { workers } => Some(Command::Run { workers }),
        Command::Serve { .. } => None,
        Command::Bench { .. } => None,
    }
}
