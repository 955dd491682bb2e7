//! The words after a command, taken apart.

ghost use Rattle.std.specs.Prelude.{◌≡◌, map, string_bytes};
ghost use Rattle.std.specs.Option.{option_map, option_and_then};
ghost use Rattle.command_line.specs.Parts.{parts_of};
ghost use Rattle.command_line.specs.Walk.{said, no_options, with_operand, with_setting, gathered, begun, walked, walk_seen, word_seen};

use crate::word::WordKind;

/// The operand and the values of the options, each at most once.
#[derive(Clone, Copy, Debug)]
pub(crate) struct Arguments<'a> {
    pub(crate) operand: Option<&'a str>,
    /// The value of `--after`.
    pub(crate) after: Option<&'a str>,
    /// The value of `--heap`.
    pub(crate) heap: Option<&'a str>,
    /// The value of `--stack`.
    pub(crate) stack: Option<&'a str>,
    /// The value of `--steps`.
    pub(crate) steps: Option<&'a str>,
    /// The value of `--units`.
    pub(crate) units: Option<&'a str>,
    /// The value of `--seed`.
    pub(crate) seed: Option<&'a str>,
    /// The value of `--size`.
    pub(crate) size: Option<&'a str>,
    /// The value of `--stats`, which takes none.
    pub(crate) stats: Option<&'a str>,
}

impl<'a> Arguments<'a> {
    /// What words say, or `None` where they are not options and operands, an option is no
    /// command's, or one of them or the operand stands twice.
    pub(crate) fn read(words: &'a [String]) -> Option<Arguments<'a>>
        ensures { option_map said result
            ≡ option_and_then (gathered no_options) (parts_of (map string_bytes words.now)) }
    {
        let mut walk = Walk {
            arguments: Arguments {
                operand: None,
                after: None,
                heap: None,
                stack: None,
                steps: None,
                units: None,
                seed: None,
                size: None,
                stats: None,
            },
            expected: Expected::Any,
        };
        for word in words {
            walk = walk.step(word.as_str())?;
        }
        match walk.expected {
            Expected::Any | Expected::Operand => Some(walk.arguments),
            Expected::Value(_) => None,
        }
    }

    /// With one operand more. `None` where there is one.
    fn with_operand(self, text: &'a str) -> Option<Arguments<'a>>
        ensures { option_map said result ≡ with_operand (said self.entry) text.now }
    {
        match self.operand {
            None => Some(Arguments {
                operand: Some(text),
                ..self
            }),
            Some(_) => None,
        }
    }

    /// With the value of one option more. `None` where the option has a value, or is no command's.
    fn with_setting(self, name: &str, value: &'a str) -> Option<Arguments<'a>>
        ensures { option_map said result ≡ with_setting (said self.entry) name.now value.now }
    {
        match name {
            "after" if self.after.is_none() => Some(Arguments {
                after: Some(value),
                ..self
            }),
            "heap" if self.heap.is_none() => Some(Arguments {
                heap: Some(value),
                ..self
            }),
            "stack" if self.stack.is_none() => Some(Arguments {
                stack: Some(value),
                ..self
            }),
            "steps" if self.steps.is_none() => Some(Arguments {
                steps: Some(value),
                ..self
            }),
            "units" if self.units.is_none() => Some(Arguments {
                units: Some(value),
                ..self
            }),
            "seed" if self.seed.is_none() => Some(Arguments {
                seed: Some(value),
                ..self
            }),
            "size" if self.size.is_none() => Some(Arguments {
                size: Some(value),
                ..self
            }),
            "stats" if self.stats.is_none() => Some(Arguments {
                stats: Some(value),
                ..self
            }),
            _ => None,
        }
    }
}

/// What the next word is.
#[derive(Clone, Copy, Debug)]
enum Expected<'a> {
    /// An option or an operand.
    Any,
    /// The value of the option of this name.
    Value(&'a str),
    /// An operand.
    Operand,
}

/// What words have said so far.
#[derive(Clone, Copy, Debug)]
struct Walk<'a> {
    arguments: Arguments<'a>,
    expected: Expected<'a>,
}

impl<'a> Walk<'a> {
    /// With one word more. `None` where it can't stand here.
    fn step(self, text: &'a str) -> Option<Walk<'a>>
        ensures { option_map walk_seen result ≡ walked (walk_seen self.entry) text.now }
    {
        match self.expected {
            Expected::Any => self.begin(WordKind::of(text)),
            Expected::Value(name) => {
                if text.starts_with('-') {
                    return None;
                }
                Some(Walk {
                    arguments: self.arguments.with_setting(name, text)?,
                    expected: Expected::Any,
                })
            }
            Expected::Operand => Some(Walk {
                arguments: self.arguments.with_operand(text)?,
                expected: Expected::Operand,
            }),
        }
    }

    /// With one word more, where no option waits for its value and no `--` has stood.
    fn begin(self, word: WordKind<'a>) -> Option<Walk<'a>>
        ensures { option_map walk_seen result
            ≡ begun (said self.entry.arguments) (word_seen word.entry) }
    {
        let arguments = self.arguments;
        match word {
            WordKind::Plain(text) => Some(Walk {
                arguments: arguments.with_operand(text)?,
                expected: Expected::Any,
            }),
            WordKind::Joined { name, value } => Some(Walk {
                arguments: arguments.with_setting(name, value)?,
                expected: Expected::Any,
            }),
            WordKind::Flag(name) => Some(Walk {
                arguments: arguments.with_setting(name, "")?,
                expected: Expected::Any,
            }),
            WordKind::Named(name) => Some(Walk {
                arguments,
                expected: Expected::Value(name),
            }),
            WordKind::End => Some(Walk {
                arguments,
                expected: Expected::Operand,
            }),
            WordKind::Unknown => None,
        }
    }
}
