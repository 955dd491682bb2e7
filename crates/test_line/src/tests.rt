//! Lines by command, with the edges of each number and the ways to write an option.

use command_line::{Command, FileOperands, Line, Listing};
use stage_names::PassName;
use std::alloc::{AllocError, Global};
use std::test::Fail;

/// The line that has these words, which stand one space apart.
fn line_of(alloc: Global, words: &str) -> Result<Line, AllocError> {
    let mut line = Line::new(alloc);
    for word in words.split(' ') {
        line.add(word)?;
    }
    Ok(line)
}

/// `exec a` with a number of instructions.
const fn exec_a(steps: u64) -> Option<Command<'static>> {
    Some(Command::Exec {
        image: "a",
        steps,
        stats: false,
    })
}

/// `exec a` whose cost is asked for, with a number of instructions.
const fn cost_of_a(steps: u64) -> Option<Command<'static>> {
    Some(Command::Exec {
        image: "a",
        steps,
        stats: true,
    })
}

#[test]
fn lines_that_ask_for_the_cost(rt: HostRuntime) -> Result<(), Fail> {
    let run_a = Some(Command::Run {
        file: "a",
        cells: 7,
        stack: 1_048_576,
        steps: 1_000_000_000,
        stats: true,
    });
    let rows = [
        ("grinc exec a --stats", cost_of_a(1_000_000_000)),
        ("grinc exec --stats a", cost_of_a(1_000_000_000)),
        ("grinc exec --stats --steps 7 -- a", cost_of_a(7)),
        ("grinc exec --steps=7 --stats a", cost_of_a(7)),
        ("grinc exec --stats a --steps 0", None),
        ("grinc exec --stats", None),
        ("grinc exec a --stats --stats", None),
        ("grinc exec a --stats=", None),
        ("grinc exec a --stats=1", None),
        ("grinc exec a --stats 1", None),
        ("grinc exec a --stat", None),
        ("grinc exec a -stats", None),
        ("grinc exec a --steps --stats", None),
        ("grinc exec a -- --stats", None),
        ("grinc run --stats a --heap 7", run_a),
        ("grinc run --heap=7 a --stats", run_a),
        ("grinc run --heap --stats 7 a", None),
        ("grinc run a --stats=true --heap 7", None),
        ("grinc build a --stats", None),
        ("grinc check --stats a", None),
        ("grinc list a --after read --stats", None),
        ("grinc gen --seed 1 --size 1 --stats", None),
        ("grinc lift --stats a", None),
        ("grinc link --stats a", None),
    ];
    for (words, want) in rows {
        let line = line_of(rt.alloc(), words)?;
        assert_eq!(rt; line.command(), want, "{words}");
    }
    Ok(())
}

#[test]
fn lines_of_exec(rt: HostRuntime) -> Result<(), Fail> {
    let rows = [
        ("grinc exec a", exec_a(1_000_000_000)),
        ("grinc exec a --steps 7", exec_a(7)),
        ("grinc exec --steps 7 a", exec_a(7)),
        ("grinc exec a --steps=7", exec_a(7)),
        ("grinc exec --steps=7 a", exec_a(7)),
        ("grinc exec --steps=7 -- a", exec_a(7)),
        ("grinc exec --steps=0007 -- a", exec_a(7)),
        ("grinc exec -- a --steps 7", None),
        ("grinc exec --steps -- 7 a", None),
        ("grinc exec a --steps", None),
        ("grinc exec a --steps=", None),
        ("grinc exec a --steps 0", None),
        ("grinc exec a --steps 1", exec_a(1)),
        (
            "grinc exec a --steps 1000000000000",
            exec_a(1_000_000_000_000),
        ),
        ("grinc exec a --steps 1000000000001", None),
        ("grinc exec a --steps 00000000000000000007", exec_a(7)),
        ("grinc exec a --steps 000000000000000000007", None),
        ("grinc exec a --steps 18446744073709551617", None),
        ("grinc exec a --steps 99999999999999999999", None),
        ("grinc exec a --steps +7", None),
        ("grinc exec a --steps -7", None),
        ("grinc exec a --steps=-7", None),
        ("grinc exec a --steps=7=7", None),
        ("grinc exec a --steps 7a", None),
        ("grinc exec a --steps 7 --steps 7", None),
        ("grinc exec a --steps=7 --steps 7", None),
        ("grinc exec a -steps 7", None),
        ("grinc exec a --step 7", None),
        ("grinc exec a --=7", None),
        ("grinc exec a --after read", None),
    ];
    for (words, want) in rows {
        let line = line_of(rt.alloc(), words)?;
        assert_eq!(rt; line.command(), want, "{words}");
    }
    Ok(())
}

/// `run` with a file and nothing else.
const fn run(file: &'static str) -> Option<Command<'static>> {
    Some(Command::Run {
        file,
        cells: 1_000_000,
        stack: 1_048_576,
        steps: 1_000_000_000,
        stats: false,
    })
}

/// `run a` with a number of cells, of bytes of the stack and of instructions.
const fn run_a(cells: u32, stack: u32, steps: u64) -> Option<Command<'static>> {
    Some(Command::Run {
        file: "a",
        cells,
        stack,
        steps,
        stats: false,
    })
}

#[test]
fn lines_of_run(rt: HostRuntime) -> Result<(), Fail> {
    let rows = [
        ("grinc run a", run_a(1_000_000, 1_048_576, 1_000_000_000)),
        (
            "grinc run --heap=0007 -- a",
            run_a(7, 1_048_576, 1_000_000_000),
        ),
        ("grinc run a --steps 1", run_a(1_000_000, 1_048_576, 1)),
        (
            "grinc run --steps=2 a --heap 3 --stack 1026",
            run_a(3, 1_026, 2),
        ),
        (
            "grinc run --heap 1 --stack 1024 a --steps 1",
            run_a(1, 1_024, 1),
        ),
        (
            "grinc run --heap 8000000 --stack 67108864 --steps 1000000000000 a",
            run_a(8_000_000, 67_108_864, 1_000_000_000_000),
        ),
        ("grinc run --heap 0 a", None),
        ("grinc run --heap 8000001 a", None),
        ("grinc run --heap 4294967297 a", None),
        ("grinc run --stack 1023 a", None),
        ("grinc run --stack 67108865 a", None),
        ("grinc run --steps 0 a", None),
        ("grinc run --steps 1000000000001 a", None),
        ("grinc run", None),
        ("grinc run a b", None),
        ("grinc run --heap 1", None),
        ("grinc run a --heap", None),
        ("grinc run --heap 1 --heap 1 a", None),
        ("grinc run --stack 1024 --stack=1024 a", None),
        ("grinc run --steps 1 a --steps 1", None),
        ("grinc run --heaps 1 a", None),
        ("grinc run a --after read", None),
    ];
    for (words, want) in rows {
        let line = line_of(rt.alloc(), words)?;
        assert_eq!(rt; line.command(), want, "{words}");
    }
    Ok(())
}

/// `build a` with a number of cells and of bytes of the stack.
const fn build_a(cells: u32, stack: u32) -> Option<Command<'static>> {
    Some(Command::Build {
        file: "a",
        cells,
        stack,
    })
}

#[test]
fn lines_of_build(rt: HostRuntime) -> Result<(), Fail> {
    let rows = [
        ("grinc build a", build_a(1_000_000, 1_048_576)),
        ("grinc build --heap=0007 -- a", build_a(7, 1_048_576)),
        ("grinc build a --stack 1026", build_a(1_000_000, 1_026)),
        ("grinc build --stack 1024 a --heap 1", build_a(1, 1_024)),
        (
            "grinc build --heap 8000000 --stack 67108864 a",
            build_a(8_000_000, 67_108_864),
        ),
        ("grinc build --heap 0 a", None),
        ("grinc build --heap 8000001 a", None),
        ("grinc build --stack 1023 a", None),
        ("grinc build --stack 67108865 a", None),
        ("grinc build", None),
        ("grinc build a b", None),
        ("grinc build --heap 1", None),
        ("grinc build a --steps 1", None),
        ("grinc build a --after code", None),
        ("grinc build --heap 1 --heap 1 a", None),
        ("grinc build --stack 1024 a --stack=1024", None),
    ];
    for (words, want) in rows {
        let line = line_of(rt.alloc(), words)?;
        assert_eq!(rt; line.command(), want, "{words}");
    }
    Ok(())
}

/// `costs a` with a number of cells and of bytes of the stack.
const fn costs_a(cells: u32, stack: u32) -> Option<Command<'static>> {
    Some(Command::Costs {
        file: "a",
        cells,
        stack,
    })
}

#[test]
fn lines_of_costs(rt: HostRuntime) -> Result<(), Fail> {
    let rows = [
        ("grinc costs a", costs_a(1_000_000, 1_048_576)),
        ("grinc costs --heap=7 -- a", costs_a(7, 1_048_576)),
        ("grinc costs --stack 1024 a", costs_a(1_000_000, 1_024)),
        (
            "grinc costs a --stack=67108864 --heap 8000000",
            costs_a(8_000_000, 67_108_864),
        ),
        ("grinc costs --heap 0 a", None),
        ("grinc costs --heap 8000001 a", None),
        ("grinc costs --stack 1023 a", None),
        ("grinc costs --stack 67108865 a", None),
        ("grinc costs", None),
        ("grinc costs a b", None),
        ("grinc costs a --steps 1", None),
        ("grinc costs a --stats", None),
        ("grinc costs a --after code", None),
        ("grinc costs --heap 1 --heap 1 a", None),
        ("grinc cost a", None),
    ];
    for (words, want) in rows {
        let line = line_of(rt.alloc(), words)?;
        assert_eq!(rt; line.command(), want, "{words}");
    }
    Ok(())
}

/// `trace a` with a number of entries.
const fn trace_a(units: u32) -> Option<Command<'static>> {
    Some(Command::Trace { file: "a", units })
}

#[test]
fn lines_of_trace(rt: HostRuntime) -> Result<(), Fail> {
    let rows = [
        ("grinc trace a", trace_a(1_000)),
        ("grinc trace --units=1 -- a", trace_a(1)),
        ("grinc trace a --units 1000000", trace_a(1_000_000)),
        ("grinc trace --units 007 a", trace_a(7)),
        ("grinc trace --units 0 a", None),
        ("grinc trace --units 1000001 a", None),
        ("grinc trace --units 1 --units 1 a", None),
        ("grinc trace", None),
        ("grinc trace a b", None),
        ("grinc trace a --units", None),
        ("grinc trace a --steps 1", None),
        ("grinc trace a --stats", None),
        ("grinc run a --units 1", None),
        ("grinc costs a --units 1", None),
        ("grinc exec a --units 1", None),
        ("grinc gen --seed 1 --size 1 --units 1", None),
        ("grinc check a --units 1", None),
        ("grinc list a --after read --units 1", None),
    ];
    for (words, want) in rows {
        let line = line_of(rt.alloc(), words)?;
        assert_eq!(rt; line.command(), want, "{words}");
    }
    Ok(())
}

#[test]
fn lines_of_profile(rt: HostRuntime) -> Result<(), Fail> {
    let rows = [
        ("grinc profile a", Some(Command::Profile { file: "a" })),
        (
            "grinc profile -- profile",
            Some(Command::Profile { file: "profile" }),
        ),
        ("grinc profile", None),
        ("grinc profile a b", None),
        ("grinc profile -a", None),
        ("grinc profile a --units 1", None),
        ("grinc profile a --steps 1", None),
        ("grinc profile --heap=1 a", None),
        ("grinc profile a --stats", None),
        ("grinc profil a", None),
    ];
    for (words, want) in rows {
        let line = line_of(rt.alloc(), words)?;
        assert_eq!(rt; line.command(), want, "{words}");
    }
    Ok(())
}

/// `gen` with a seed and a size.
const fn gen_of(seed: u32, size: u32) -> Option<Command<'static>> {
    Some(Command::Gen { seed, size })
}

#[test]
fn lines_of_gen(rt: HostRuntime) -> Result<(), Fail> {
    let rows = [
        ("grinc gen --seed 1 --size 2", gen_of(1, 2)),
        (
            "grinc gen --size=200 --seed=2147483647",
            gen_of(2_147_483_647, 200),
        ),
        ("grinc gen --seed 0 --size 1 --", gen_of(0, 1)),
        ("grinc gen --seed 1", None),
        ("grinc gen --size 2", None),
        ("grinc gen", None),
        ("grinc gen a --seed 1 --size 2", None),
        ("grinc gen --seed 1 --size 2 -- a", None),
        ("grinc gen --seed 2147483648 --size 2", None),
        ("grinc gen --seed 1 --size 0", None),
        ("grinc gen --seed 1 --size 201", None),
        ("grinc gen --seed 1 --seed 1 --size 2", None),
        ("grinc gen --seed 1 --size 2 --steps 1", None),
        ("grinc run a --seed 1", None),
        ("grinc check a --size 1", None),
    ];
    for (words, want) in rows {
        let line = line_of(rt.alloc(), words)?;
        assert_eq!(rt; line.command(), want, "{words}");
    }
    Ok(())
}

/// `list a` after what the line says.
const fn list_a(after: Listing) -> Option<Command<'static>> {
    Some(Command::List { file: "a", after })
}

/// `list a` after a stage.
const fn stage_of_a(stage: PassName) -> Option<Command<'static>> {
    list_a(Listing::Stage(stage))
}

#[test]
fn stages_by_their_words(rt: HostRuntime) -> Result<(), Fail> {
    let stages = [
        PassName::Translate,
        PassName::Eval,
        PassName::Apply,
        PassName::Vectorise,
        PassName::Simplify,
        PassName::Fetch,
        PassName::Copy,
        PassName::Update,
        PassName::Unbox,
        PassName::Raise,
        PassName::Flat,
        PassName::Known,
        PassName::Cells,
        PassName::Dead,
    ];
    for stage in stages {
        let mut line = line_of(rt.alloc(), "grinc list a --after")?;
        line.add(stage.word())?;
        assert_eq!(rt; line.command(), stage_of_a(stage), "{}", stage.word());
    }
    Ok(())
}

#[test]
fn other_lines(rt: HostRuntime) -> Result<(), Fail> {
    let rows = [
        ("grinc run a", run("a")),
        ("anything run a", run("a")),
        (" run a", run("a")),
        ("run a", None),
        ("grinc", None),
        ("grinc ", None),
        ("grinc Run a", None),
        ("grinc --help", None),
        ("grinc run  a", None),
        ("grinc run a ", None),
        ("grinc run -", run("-")),
        ("grinc run -a", None),
        ("grinc run --", None),
        ("grinc run --a", None),
        ("grinc run -- a", run("a")),
        ("grinc run a --", run("a")),
        ("grinc run -- -a", run("-a")),
        ("grinc run -- --", run("--")),
        ("grinc run -- a -- b", None),
        (
            "grinc exec -- --steps",
            Some(Command::Exec {
                image: "--steps",
                steps: 1_000_000_000,
                stats: false,
            }),
        ),
        ("grinc check a", Some(Command::Check { file: "a" })),
        ("grinc lift a", Some(Command::Lift { file: "a" })),
        ("grinc lift -- -a", Some(Command::Lift { file: "-a" })),
        ("grinc lift --steps=1 a", None),
        ("grinc lift a b", None),
        ("grinc match a", Some(Command::Match { file: "a" })),
        ("grinc match -- -a", Some(Command::Match { file: "-a" })),
        ("grinc match --heap=1 a", None),
        ("grinc match", None),
        ("grinc types a", Some(Command::Types { file: "a" })),
        (
            "grinc types -- types",
            Some(Command::Types { file: "types" }),
        ),
        ("grinc types --after read a", None),
        ("grinc types a b", None),
        ("grinc sides a", Some(Command::Sides { file: "a" })),
        (
            "grinc sides -- sides",
            Some(Command::Sides { file: "sides" }),
        ),
        ("grinc sides --after read a", None),
        ("grinc sides a b", None),
        ("grinc points a", Some(Command::Points { file: "a" })),
        (
            "grinc points -- points",
            Some(Command::Points { file: "points" }),
        ),
        ("grinc points --after read a", None),
        ("grinc points a b", None),
        ("grinc type a", None),
        ("grinc check --steps=1 a", None),
        ("grinc check --heap 1 a", None),
        ("grinc exec --stack 1024 a", None),
        ("grinc list a --after read", list_a(Listing::Read)),
        (
            "grinc list --after translate a",
            stage_of_a(PassName::Translate),
        ),
        ("grinc list --after=eval a", stage_of_a(PassName::Eval)),
        ("grinc list --after=apply -- a", stage_of_a(PassName::Apply)),
        (
            "grinc list a --after vectorise",
            stage_of_a(PassName::Vectorise),
        ),
        (
            "grinc list a --after simplify",
            stage_of_a(PassName::Simplify),
        ),
        ("grinc list a --after fetch", stage_of_a(PassName::Fetch)),
        ("grinc list a --after copy", stage_of_a(PassName::Copy)),
        ("grinc list a --after update", stage_of_a(PassName::Update)),
        ("grinc list a --after unbox", stage_of_a(PassName::Unbox)),
        ("grinc list a --after raise", stage_of_a(PassName::Raise)),
        ("grinc list a --after flat", stage_of_a(PassName::Flat)),
        ("grinc list a --after known", stage_of_a(PassName::Known)),
        ("grinc list a --after cells", stage_of_a(PassName::Cells)),
        ("grinc list a --after dead", stage_of_a(PassName::Dead)),
        ("grinc list --after code a", list_a(Listing::Code)),
        ("grinc list a", None),
        ("grinc list a --after", None),
        ("grinc list a --after=", None),
        ("grinc list a --after tidy", None),
        ("grinc list a --after read --steps 1", None),
        ("grinc list a --after read --heap 1", None),
        ("grinc list a --after=read --after read", None),
        ("grinc list a --after code --stack 1024", None),
        ("grinc gen a", None),
    ];
    for (words, want) in rows {
        let line = line_of(rt.alloc(), words)?;
        assert_eq!(rt; line.command(), want, "{words}");
    }
    Ok(())
}

/// Whether words are these names.
fn are_named(words: &[String], names: &[&str]) -> bool {
    let mut pairs = words.iter().zip(names.iter());
    words.len() == names.len() && pairs.all(|(word, name)| word.as_str() == *name)
}

/// The files that a line links, if it links any.
fn linked<'a>(line: &'a Line) -> Option<FileOperands<'a>> {
    match line.command() {
        Some(Command::Link { files }) => Some(files),
        _ => None,
    }
}

#[test]
fn lines_of_link(rt: HostRuntime) -> Result<(), Fail> {
    let rows: [(&str, &[&str], &[&str]); 7] = [
        ("grinc link a", &["a"], &[]),
        ("grinc link b a b", &["b", "a", "b"], &[]),
        ("grinc link - a", &["-", "a"], &[]),
        ("grinc link -- -a b", &[], &["-a", "b"]),
        ("grinc link a -- b", &["a"], &["b"]),
        ("grinc link a --", &["a"], &[]),
        ("grinc link a -- --steps --", &["a"], &["--steps", "--"]),
    ];
    for (words, plain, rest) in rows {
        let line = line_of(rt.alloc(), words)?;
        let is_named = match linked(&line) {
            Some(files) => are_named(files.plain, plain) && are_named(files.rest, rest),
            None => false,
        };
        assert!(rt; is_named, "{words}");
    }
    Ok(())
}

#[test]
fn lines_of_no_link(rt: HostRuntime) -> Result<(), Fail> {
    let lines = [
        "grinc link",
        "grinc link --",
        "grinc link -a",
        "grinc link a -b",
        "grinc link a --steps 1",
        "grinc link --steps=1 a",
        "grinc link a --after read",
        "grinc link a ",
        "grinc Link a",
    ];
    for words in lines {
        let line = line_of(rt.alloc(), words)?;
        assert_eq!(rt; line.command(), None, "{words}");
    }
    Ok(())
}

#[test]
fn many_files(rt: HostRuntime) -> Result<(), Fail> {
    // Names before the first `--` and behind it, and whether there are 1 to 64 of them.
    let rows = [
        (64, 0, true),
        (65, 0, false),
        (0, 64, true),
        (0, 65, false),
        (40, 24, true),
        (40, 25, false),
        (64, 64, false),
        (0, 0, false),
    ];
    for (before, behind, is_command) in rows {
        let mut line = line_of(rt.alloc(), "grinc link")?;
        for _ in 0..before {
            line.add("a")?;
        }
        line.add("--")?;
        for _ in 0..behind {
            line.add("b")?;
        }
        let count = match linked(&line) {
            Some(files) => files.plain.len() + files.rest.len(),
            None => 0,
        };
        let wanted = if is_command { before + behind } else { 0 };
        assert_eq!(rt; count, wanted, "{before} {behind}");
    }
    Ok(())
}
