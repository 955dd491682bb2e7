//! The words of a command line, one by one.

ghost use Rattle.std.specs.Prelude.{◌≡◌};
ghost use Rattle.command_line.specs.Parts.{word_of, joined, named, is_flag};
ghost use Rattle.command_line.specs.Walk.{word_seen};

/// What a word is while no `--` stands before it.
#[derive(Clone, Copy, Debug)]
pub(crate) enum WordKind<'a> {
    /// An operand.
    Plain(&'a str),
    /// `--name=value`.
    Joined { name: &'a str, value: &'a str },
    /// `--name`, of an option that takes no value.
    Flag(&'a str),
    /// `--name`, whose value is the next word.
    Named(&'a str),
    /// `--`, after which every word is an operand.
    End,
    /// A dash with more after it, which no command has.
    Unknown,
}

impl<'a> WordKind<'a> {
    /// What a text is.
    pub(crate) fn of(text: &'a str) -> WordKind<'a>
        ensures { word_seen result ≡ word_of text.now }
    {
        let Some(dashed) = text.strip_prefix('-') else {
            return WordKind::Plain(text);
        };
        if dashed.is_empty() {
            return WordKind::Plain(text);
        }
        let Some(option) = dashed.strip_prefix('-') else {
            return WordKind::Unknown;
        };
        if option.is_empty() {
            return WordKind::End;
        }
        match option.split_once('=') {
            Some((name, value)) => WordKind::joined(name, value),
            None => WordKind::named(option),
        }
    }

    /// An option with a value in the same word.
    fn joined(name: &'a str, value: &'a str) -> WordKind<'a>
        ensures { word_seen result ≡ joined name.now value.now }
    {
        if is_flag(name) {
            WordKind::Unknown
        } else {
            WordKind::Joined { name, value }
        }
    }

    /// An option without one in its word.
    fn named(name: &'a str) -> WordKind<'a>
        ensures { word_seen result ≡ named name.now }
    {
        if is_flag(name) {
            WordKind::Flag(name)
        } else {
            WordKind::Named(name)
        }
    }
}

/// Whether an option takes no value.
fn is_flag(name: &str) -> bool
    ensures { result ≡ is_flag name.now }
{
    name == "stats"
}
