ghost use Rattle.std.specs.Prelude.{map, string_bytes};
ghost use Rattle.zl_cli.specs.Command.{IsCommand};

/// What the words ask for.
#[derive(Clone, Copy)]
pub(crate) enum Command<'a> {
    /// `check FILE`
    Check(&'a str),
    /// `run FILE SCRIPT`
    Run(&'a str, &'a str),
    /// Words of no form.
    Other,
}

/// The command that the words are.
pub(crate) fn command_of(words: &[String]) -> Command<'_>
    ensures { IsCommand (map string_bytes words.now) result }
{
    match words {
        [verb, file] => {
            if verb.as_str() == "check" {
                Command::Check(file.as_str())
            } else {
                Command::Other
            }
        }
        [verb, file, script] => {
            if verb.as_str() == "run" {
                Command::Run(file.as_str(), script.as_str())
            } else {
                Command::Other
            }
        }
        _ => Command::Other,
    }
}
