//! The arguments after the program's name, which say what it does and with which files. `main`
//! calls `command_of`.
ghost use Rattle.std.specs.Prelude.{◌≡◌, map, option_map, string_bytes};

/// What the arguments ask for, with the paths of the files.
#[derive(Clone, Copy, Debug, PartialEq, Eq)]
pub enum Form<'a> {
    /// `check`: validates a configuration, and counts its parts.
    Check { config: &'a str },
    /// `run`: applies all events of a script under a configuration.
    Run { config: &'a str, script: &'a str },
    /// `session`: reads commands from standard input, and answers them over a script and a
    /// configuration.
    Session { config: &'a str, script: &'a str },
}

ghost use Rattle.amreplay.specs.Program.Words.{task_of_words, task_of, with_files};

/// Returns what the arguments ask for, or `None` if that is a usage error. There are no options.
pub fn command_of<'a>(words: &'a [String]) -> Option<Form<'a>>
    ensures { option_map task_of result ≡ task_of_words (map string_bytes words.now) }
{
    match words {
        [word, config] if word.as_str() == "check" => Some(Form::Check {
            config: config.as_str(),
        }),
        [word, config, script] => {
            command_with_files(word.as_str(), config.as_str(), script.as_str())
        }
        _ => None,
    }
}

/// Returns the form with two files that the word names.
fn command_with_files<'a>(word: &str, config: &'a str, script: &'a str) -> Option<Form<'a>>
    ensures { option_map task_of result ≡ with_files word.now config.now script.now }
{
    match word {
        "run" => Some(Form::Run { config, script }),
        "session" => Some(Form::Session { config, script }),
        _ => None,
    }
}
