//! The values that words give to options.
ghost use Rattle.std.specs.Prelude.{◌≡◌, option_map};
ghost use Rattle.std.specs.List.{list_all};
ghost use Rattle.vg_words.specs.Command.{is_value_or_long};
ghost use Rattle.vg_words.specs.Request.{flag_value, texts};
ghost use Rattle.vg_words.specs.Views.{given_by, Gives};

use crate::ask::WordFault;
use crate::command::parse;
use crate::option::Opt;
use clap::ArgMatches;
use std::alloc::Global;

/// What the words give, where they are settings, with no option set twice.
#[derive(Drop)]
pub struct Given<'a> {
    matches: ArgMatches<'a>,
    /// Whether the flag `--all` is given.
    all: bool,
}

/// Whether a word is a value, which begins with no `-`, or a long option.
///
/// Of other words `clap` takes two: `-` is a value, and `--` ends the options.
fn is_value_or_long(word: &str) -> bool
    ensures { result ≡ is_value_or_long word.now }
{
    match word.strip_prefix("--") {
        Some(rest) => !rest.is_empty(),
        None => !word.starts_with('-'),
    }
}

fn are_values_or_long(words: &[String]) -> bool
    ensures { result ≡ list_all is_value_or_long (texts words.now) }
{
    words.iter().all(|word| is_value_or_long(word))
}

impl<'a> Given<'a> {
    /// What the words give. `Unread`: they are no settings, or set some option twice. `Memory`: there is no room.
    pub fn of(alloc: Global, words: &'a [String]) -> Result<Given<'a>, WordFault>
        ensures { Gives result (texts words.now) }
    {
        if !are_values_or_long(words) {
            return Err(WordFault::Unread);
        }
        let matches = parse(alloc, words)?;
        let all = matches.get_flag(Opt::All.long());
        Ok(Given { matches, all })
    }

    /// The value of the flag.
    fn flag(&self) -> Option<&'a str>
        ensures { option_map (λ value. value.now) result ≡ flag_value self.now.all }
    {
        if self.all { Some("") } else { None }
    }

    /// The value of an option, which is empty for a flag that is given.
    pub fn get(&self, option: Opt) -> Option<&'a str>
        ensures { option_map (λ value. value.now) result ≡ given_by self.now option }
    {
        if option.is_flag() {
            self.flag()
        } else {
            self.matches.get_str(option.long())
        }
    }
}
