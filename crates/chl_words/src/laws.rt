//! The laws of command lines: each function does nothing, and its contract is the law.
ghost use Rattle.chl_words.specs.Laws.{CommandsAreJudgedByTheirUses, NoCommandIsNone, StrayWordsAreNoCommand, UnknownCommandsAreNone};

/// A program's name, a command and uses of options, in any order and each in either form, ask for what the values of the
/// uses and the defaults of the other options say, where each use is of an option of the command that no use before it is
/// of, its value is one that the option takes, and each option that must be there is; and else for nothing.
pub fn commands_are_judged_by_their_uses()
    ensures { CommandsAreJudgedByTheirUses }
{}

/// No words ask for nothing, and neither does the program's name alone.
pub fn no_command_is_none()
    ensures { NoCommandIsNone }
{}

/// A word that does not begin with a dash, after uses, is stray: whatever follows, the words ask for nothing.
pub fn stray_words_are_no_command()
    ensures { StrayWordsAreNoCommand }
{}

/// Where the first word after the program's name is no command's name, as `help`, `--help` and `-h`, the words ask for
/// nothing, whatever follows.
pub fn unknown_commands_are_none()
    ensures { UnknownCommandsAreNone }
{}
