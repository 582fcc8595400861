//! What words are never refused.

ghost use Rattle.std.specs.Prelude.{◌≡◌, Some};
ghost use Rattle.irt_words.specs.Asked.{IsStated, asked_of, words_of};
ghost use Rattle.irt_words.specs.Commands.{Command};

/// Words that are exactly a command's form, with each number in its range and no file's name empty or beginning with
/// `-`, ask for this command.
pub fn stated_words_are_read()
    ensures { (command : Command) → IsStated command → asked_of (words_of command) ≡ Some command }
{}
