//! The files that `link` names.

ghost use Rattle.std.specs.Prelude.{◌≡◌, map, string_bytes};
ghost use Rattle.std.specs.Option.{option_map, option_and_then};
ghost use Rattle.command_line.specs.Commands.{names_of, operands_alone};
ghost use Rattle.command_line.specs.Parts.{parts_of};

use crate::word::WordKind;

/// Words that name files, in their order.
#[derive(Clone, Copy, Debug, PartialEq, Eq)]
pub struct FileOperands<'a> {
    /// The words before the first `--`.
    pub plain: &'a [String],
    /// The words behind it.
    pub rest: &'a [String],
}

impl<'a> FileOperands<'a> {
    /// The files that words name, or `None` where one of the words isn't an operand.
    pub(crate) fn read(words: &'a [String]) -> Option<FileOperands<'a>>
        ensures { option_map names_of result
            ≡ option_and_then operands_alone (parts_of (map string_bytes words.now)) }
    {
        let mut count = 0;
        for word in words {
            match WordKind::of(word.as_str()) {
                WordKind::Plain(_) => count += 1,
                WordKind::End => {
                    return Some(FileOperands {
                        plain: &words[..count],
                        rest: &words[count + 1..],
                    });
                }
                WordKind::Joined { name: _, value: _ }
                | WordKind::Flag(_)
                | WordKind::Named(_)
                | WordKind::Unknown => return None,
            }
        }
        Some(FileOperands {
            plain: words,
            rest: &[],
        })
    }
}
