//! The commands.

ghost use Rattle.std.specs.Prelude.{◌≡◌, ℕ, List, map, string_bytes};
ghost use Rattle.std.specs.Option.{option_map, option_and_then};
ghost use Rattle.command_line.specs.Commands.{asked_by, asked, command_from, listing_of, run_form, check_form, list_form, build_form, costs_form, sized_form, trace_form, profile_form, exec_form, gen_form, file_form, lift_form, match_form, types_form, sides_form, points_form, link_form, CommandLine};
ghost use Rattle.command_line.specs.Parts.{parts_of};
ghost use Rattle.command_line.specs.Walk.{said, asked_said, chosen};

use crate::arguments::Arguments;
use crate::files::FileOperands;
use crate::number::{CELLS, STACK, STEPS, UNITS, seed_within, size_within};
use stage_names::PassName;

/// What a program is listed as.
#[derive(Clone, Copy, Debug, PartialEq, Eq)]
pub enum Listing {
    /// The text as it was read.
    Read,
    /// The program at a stage.
    Stage(PassName),
    /// The code of its image.
    Code,
}

/// A command. Its file or its image is the operand as it stands in the line.
#[derive(Clone, Copy, Debug, PartialEq, Eq)]
pub enum Command<'a> {
    /// `run FILE --heap N --stack N --steps N --stats`: compile the file and run it with a heap of
    /// so many cells and a stack of so many bytes, for at most so many instructions, and say what
    /// it cost. The stack is as the line says, a multiple of four or not.
    Run {
        file: &'a str,
        cells: u32,
        stack: u32,
        steps: u64,
        stats: bool,
    },
    /// `check FILE`: say whether the file breaks a rule.
    Check {
        file: &'a str,
    },
    /// `list FILE --after PASS`: write the program as it is after a pass, or its code.
    List {
        file: &'a str,
        after: Listing,
    },
    /// `build FILE --heap N --stack N`: write the image of the file with a heap of so many cells
    /// and a stack of so many bytes, a multiple of four or not.
    Build {
        file: &'a str,
        cells: u32,
        stack: u32,
    },
    /// `costs FILE --heap N --stack N`: write what the image that `build` writes for the same words
    /// needs.
    Costs {
        file: &'a str,
        cells: u32,
        stack: u32,
    },
    /// `trace FILE --units N`: write the procedures that the image of the file enters on no input,
    /// the first ones, so many.
    Trace {
        file: &'a str,
        units: u32,
    },
    /// `profile FILE`: write how often the image of the file enters each procedure on no input, and
    /// how many instructions it does in it.
    Profile {
        file: &'a str,
    },
    /// `exec IMAGE --steps N --stats`: run an executable for at most so many instructions, and say
    /// what it cost.
    Exec {
        image: &'a str,
        steps: u64,
        stats: bool,
    },
    /// `gen --seed N --size N`: compile and run the text that is generated from the seed in so many
    /// rounds.
    Gen {
        seed: u32,
        size: u32,
    },
    /// `link FILE..`: write the one text that 1 to 64 files of modules are together.
    Link {
        files: FileOperands<'a>,
    },
    /// `lift FILE`: write the text of Core that a text with lambdas and local functions stands for.
    Lift {
        file: &'a str,
    },
    /// `match FILE`: write the text of Core that a text of pattern equations stands for.
    Match {
        file: &'a str,
    },
    /// `types FILE`: check a text with types, and write its text of Core.
    Types {
        file: &'a str,
    },
    /// `sides FILE`: write the two sides of the types that do not fit in a text with types.
    Sides {
        file: &'a str,
    },
    /// `points FILE`: write what the analysis finds of the translation of the file.
    Points {
        file: &'a str,
    },
}

/// The most files that are linked.
const MOST_FILES: usize = 64;

impl Listing {
    /// The listing that a word of `--after` names.
    fn named(word: &str) -> Option<Listing>
        ensures { result ≡ listing_of word.now }
    {
        match word {
            "read" => Some(Listing::Read),
            "code" => Some(Listing::Code),
            _ => Some(Listing::Stage(PassName::named(word)?)),
        }
    }
}

impl<'a> Command<'a> {
    /// The command of a name and the words after it, or `None` where they are none.
    pub(crate) fn read(name: &str, words: &'a [String]) -> Option<Command<'a>>
        ensures { option_map asked_by result
            ≡ option_and_then (command_from name.now) (parts_of (map string_bytes words.now)) }
    {
        if name == "link" {
            return Command::link(words);
        }
        let arguments = Arguments::read(words)?;
        Command::from_arguments(name, arguments)
    }

    /// The command of a name with its arguments, or `None` where there is none.
    fn from_arguments(name: &str, arguments: Arguments<'a>) -> Option<Command<'a>>
        ensures { option_map asked_by result ≡ chosen name.now (said arguments.entry) }
    {
        match name {
            "run" => Command::run(arguments),
            "check" => Command::check(arguments),
            "list" => Command::list(arguments),
            "build" => Command::build(arguments),
            "costs" => Command::costs(arguments),
            "trace" => Command::trace(arguments),
            "profile" => Command::profile(arguments),
            "exec" => Command::exec(arguments),
            "gen" => Command::generate(arguments),
            "lift" => Command::lift(arguments),
            "match" => Command::equations(arguments),
            "types" => Command::types(arguments),
            "sides" => Command::sides(arguments),
            "points" => Command::points(arguments),
            _ => None,
        }
    }

    /// `run` with its arguments.
    fn run(arguments: Arguments<'a>) -> Option<Command<'a>>
        ensures { option_map asked_by result ≡ asked_said (said arguments.entry) run_form }
    {
        let Arguments {
            operand: Some(file),
            after: None,
            heap,
            stack,
            steps,
            units: None,
            seed: None,
            size: None,
            stats,
        } = arguments
        else {
            return None;
        };
        Some(Command::Run {
            file,
            cells: CELLS.read_u32(heap)?,
            stack: STACK.read_u32(stack)?,
            steps: STEPS.read(steps)?,
            stats: stats.is_some(),
        })
    }

    /// The file of a command without options.
    fn file_alone(arguments: Arguments<'a>) -> Option<&'a str>
        ensures { (ask : List ℕ → CommandLine) → option_map (λ file. ask file.now) result
            ≡ asked_said (said arguments.entry) (file_form ask) }
    {
        let Arguments {
            operand: Some(file),
            after: None,
            heap: None,
            stack: None,
            steps: None,
            units: None,
            seed: None,
            size: None,
            stats: None,
        } = arguments
        else {
            return None;
        };
        Some(file)
    }

    /// `check` with its arguments.
    fn check(arguments: Arguments<'a>) -> Option<Command<'a>>
        ensures { option_map asked_by result ≡ asked_said (said arguments.entry) check_form }
    {
        let file = Command::file_alone(arguments)?;
        Some(Command::Check { file })
    }

    /// `profile` with its arguments.
    fn profile(arguments: Arguments<'a>) -> Option<Command<'a>>
        ensures { option_map asked_by result ≡ asked_said (said arguments.entry) profile_form }
    {
        let file = Command::file_alone(arguments)?;
        Some(Command::Profile { file })
    }

    /// `lift` with its arguments.
    fn lift(arguments: Arguments<'a>) -> Option<Command<'a>>
        ensures { option_map asked_by result ≡ asked_said (said arguments.entry) lift_form }
    {
        let file = Command::file_alone(arguments)?;
        Some(Command::Lift { file })
    }

    /// `match` with its arguments.
    fn equations(arguments: Arguments<'a>) -> Option<Command<'a>>
        ensures { option_map asked_by result ≡ asked_said (said arguments.entry) match_form }
    {
        let file = Command::file_alone(arguments)?;
        Some(Command::Match { file })
    }

    /// `types` with its arguments.
    fn types(arguments: Arguments<'a>) -> Option<Command<'a>>
        ensures { option_map asked_by result ≡ asked_said (said arguments.entry) types_form }
    {
        let file = Command::file_alone(arguments)?;
        Some(Command::Types { file })
    }

    /// `sides` with its arguments.
    fn sides(arguments: Arguments<'a>) -> Option<Command<'a>>
        ensures { option_map asked_by result ≡ asked_said (said arguments.entry) sides_form }
    {
        let file = Command::file_alone(arguments)?;
        Some(Command::Sides { file })
    }

    /// `points` with its arguments.
    fn points(arguments: Arguments<'a>) -> Option<Command<'a>>
        ensures { option_map asked_by result ≡ asked_said (said arguments.entry) points_form }
    {
        let file = Command::file_alone(arguments)?;
        Some(Command::Points { file })
    }

    /// `list` with its arguments.
    fn list(arguments: Arguments<'a>) -> Option<Command<'a>>
        ensures { option_map asked_by result ≡ asked_said (said arguments.entry) list_form }
    {
        let Arguments {
            operand: Some(file),
            after: Some(pass),
            heap: None,
            stack: None,
            steps: None,
            units: None,
            seed: None,
            size: None,
            stats: None,
        } = arguments
        else {
            return None;
        };
        Some(Command::List {
            file,
            after: Listing::named(pass)?,
        })
    }

    /// The file of a command about an image, and the image's cells and bytes of stack.
    fn file_and_sizes(arguments: Arguments<'a>) -> Option<(&'a str, u32, u32)>
        ensures { (ask : List ℕ → (cells stack : ℕ) → CommandLine)
            → option_map (λ (file, cells, stack). ask file.now cells stack) result
            ≡ asked_said (said arguments.entry) (sized_form ask) }
    {
        let Arguments {
            operand: Some(file),
            after: None,
            heap,
            stack,
            steps: None,
            units: None,
            seed: None,
            size: None,
            stats: None,
        } = arguments
        else {
            return None;
        };
        let cells = CELLS.read_u32(heap)?;
        let stack = STACK.read_u32(stack)?;
        Some((file, cells, stack))
    }

    /// `build` with its arguments.
    fn build(arguments: Arguments<'a>) -> Option<Command<'a>>
        ensures { option_map asked_by result ≡ asked_said (said arguments.entry) build_form }
    {
        let (file, cells, stack) = Command::file_and_sizes(arguments)?;
        Some(Command::Build { file, cells, stack })
    }

    /// `costs` with its arguments.
    fn costs(arguments: Arguments<'a>) -> Option<Command<'a>>
        ensures { option_map asked_by result ≡ asked_said (said arguments.entry) costs_form }
    {
        let (file, cells, stack) = Command::file_and_sizes(arguments)?;
        Some(Command::Costs { file, cells, stack })
    }

    /// `trace` with its arguments.
    fn trace(arguments: Arguments<'a>) -> Option<Command<'a>>
        ensures { option_map asked_by result ≡ asked_said (said arguments.entry) trace_form }
    {
        let Arguments {
            operand: Some(file),
            after: None,
            heap: None,
            stack: None,
            steps: None,
            units,
            seed: None,
            size: None,
            stats: None,
        } = arguments
        else {
            return None;
        };
        Some(Command::Trace {
            file,
            units: UNITS.read_u32(units)?,
        })
    }

    /// `exec` with its arguments.
    fn exec(arguments: Arguments<'a>) -> Option<Command<'a>>
        ensures { option_map asked_by result ≡ asked_said (said arguments.entry) exec_form }
    {
        let Arguments {
            operand: Some(image),
            after: None,
            heap: None,
            stack: None,
            steps,
            units: None,
            seed: None,
            size: None,
            stats,
        } = arguments
        else {
            return None;
        };
        Some(Command::Exec {
            image,
            steps: STEPS.read(steps)?,
            stats: stats.is_some(),
        })
    }

    /// `gen` with its arguments.
    fn generate(arguments: Arguments<'a>) -> Option<Command<'a>>
        ensures { option_map asked_by result ≡ asked_said (said arguments.entry) gen_form }
    {
        let Arguments {
            operand: None,
            after: None,
            heap: None,
            stack: None,
            steps: None,
            units: None,
            seed: Some(seed),
            size: Some(size),
            stats: None,
        } = arguments
        else {
            return None;
        };
        Some(Command::Gen {
            seed: seed_within(seed)?,
            size: size_within(size)?,
        })
    }

    /// `link` with the words after it.
    fn link(words: &'a [String]) -> Option<Command<'a>>
        ensures { option_map asked_by result
            ≡ option_and_then (λ parts. asked parts link_form)
            (parts_of (map string_bytes words.now)) }
    {
        let files = FileOperands::read(words)?;
        if files.plain.len() > MOST_FILES || files.rest.len() > MOST_FILES {
            return None;
        }
        let count = files.plain.len() + files.rest.len();
        if count == 0 || count > MOST_FILES {
            return None;
        }
        Some(Command::Link { files })
    }
}
