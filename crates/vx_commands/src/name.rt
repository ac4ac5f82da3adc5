//! The name of a file, as a word of the program spells it.
ghost use Rattle.std.specs.Prelude.{◌≡◌, Some};
ghost use Rattle.std.specs.Option.{option_map};
ghost use Rattle.vx_commands.specs.Command.{is_name as is_name_text, name_of};

use std::marker::Model;

/// A name, which contracts see as its bytes.
#[derive(Drop)]
pub struct Name<'a> {
    text: &'a str,
}

impl<'a> Model for Name<'a> {
    ghost use Rattle.std.specs.Prelude.{List, ℕ};

    ghost Value = { List ℕ };

    ghost view = { λ n. n.text.now };
}

fn is_name(word: &str) -> bool
    ensures { result ≡ is_name_text word.now }
{
    match word.as_bytes() {
        [b'-', ..] => false,
        _ => true,
    }
}

impl<'a> Name<'a> {
    /// The name that a word spells: one that does not begin with `-`.
    pub(crate) fn parse(word: &'a str) -> Option<Name<'a>>
        ensures { result ≡ name_of word.now }
    {
        if is_name(word) {
            Some(Name::of(word))
        } else {
            None
        }
    }

    /// The name that a text is.
    pub(crate) fn of(text: &'a str) -> Name<'a>
        ensures { result ≡ text.now }
    {
        Name { text }
    }

    pub(crate) fn as_str(&self) -> &'a str
        ensures { result.now ≡ self.now }
    {
        self.text
    }
}
