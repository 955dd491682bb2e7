//! The canonical text of a program.

ghost use Rattle.std.specs.Prelude.{◌≡◌, ◌++◌, codes, decimal, map, OnOk, IfOk};
ghost use Rattle.std.specs.List.{flat_map};
ghost use Rattle.std.specs.Fmt.{signed_decimal};
ghost use Rattle.core_reader.specs.Tree.{term, application, bind as bind_of, expr as expr_of, alternative, alts_of, data_of, function as function_of, program};
ghost use Rattle.core_print.specs.Canonical.{name_text, binders_text, term_text, app_text, bind_text, group_text, pattern_text, expr_text, alts_text, data_line, function_line, canonical};

use core_reader::{Alt, App, Atom, Bind, Binder, Core, Data, Expr, Function, NameId, Pattern};
use itoa::Buffer;
use seq::Seq;
use std::alloc::{AllocError, Global};
use std::marker::Model;

/// The canonical text of a program: each declaration is a line, the constructors first and then the
/// functions. One space stands between two tokens, but none after `(` and none before `)` and `;`.
/// Time and memory are linear in the text.
pub fn print(alloc: Global, core: &Core) -> Result<Vec<u8>, AllocError>
    ensures { IfOk result (λ text. text.items ≡ canonical (program core.now)) }
{
    let names = core.names.texts();
    let mut text = Text {
        bytes: Vec::new(alloc),
    };
    text.constructors(names, core.constructors.as_slice())?;
    text.functions(names, core.functions.as_slice())?;
    Ok(text.bytes)
}

/// A text as it grows.
#[derive(Drop)]
struct Text {
    bytes: Vec<u8>,
}

impl Model for Text {
    ghost use Rattle.std.specs.Prelude.{List, ℕ};

    ghost Value = { List ℕ };

    ghost view = { λ t. t.bytes.items };
}

impl Text {
    fn put(&mut self, piece: &[u8]) -> Result<(), AllocError>
        ensures { OnOk result (self.new ≡ self.old ++ piece.now) }
    {
        self.bytes.extend_from_slice(piece)
    }

    fn count(&mut self, count: u32) -> Result<(), AllocError>
        ensures { OnOk result (self.new ≡ self.old ++ decimal count) }
    {
        let mut buffer = Buffer::new();
        self.put(buffer.format(count).as_bytes())
    }

    fn integer(&mut self, value: i32) -> Result<(), AllocError>
        ensures { OnOk result (self.new ≡ self.old ++ signed_decimal value) }
    {
        let mut buffer = Buffer::new();
        self.put(buffer.format(value).as_bytes())
    }

    fn name(&mut self, names: &[Seq<u8>], id: NameId) -> Result<(), AllocError>
        ensures { OnOk result (self.new ≡ self.old ++ name_text names.now id.0) }
    {
        match names.get(id.0 as usize) {
            Some(name) => self.put(name.as_slice()),
            None => Ok(()),
        }
    }

    /// Each name behind a space.
    fn binders(&mut self, names: &[Seq<u8>], binders: &[Binder]) -> Result<(), AllocError>
        ensures { OnOk result (self.new ≡ self.old ++ binders_text names.now binders.now) }
    {
        for binder in binders {
            self.put(b" ")?;
            self.name(names, binder.name)?;
        }
        Ok(())
    }

    #[cycle(print_app)]
    fn atom(&mut self, names: &[Seq<u8>], atom: &Atom) -> Result<(), AllocError>
        ensures { OnOk result (self.new ≡ self.old ++ term_text names.now (term atom.now)) }
    {
        match atom {
            Atom::Name(id, _) => self.name(names, *id),
            Atom::Con(id, _) => self.name(names, *id),
            Atom::Int(value, _) => self.integer(*value),
            Atom::Bracket(app, _) => {
                self.put(b"(")?;
                self.app(names, app)?;
                self.put(b")")
            }
        }
    }

    #[cycle(print_app)]
    fn app(&mut self, names: &[Seq<u8>], app: &App) -> Result<(), AllocError>
        ensures { OnOk result (self.new ≡ self.old ++ app_text names.now (application app.now)) }
    {
        self.atom(names, &app.head)?;
        for atom in app.args.as_slice() {
            self.put(b" ")?;
            self.atom(names, atom)?;
        }
        Ok(())
    }

    fn bind(&mut self, names: &[Seq<u8>], bind: &Bind) -> Result<(), AllocError>
        ensures { OnOk result (self.new ≡ self.old ++ bind_text names.now (bind_of bind.now)) }
    {
        self.name(names, bind.binder.name)?;
        self.put(b" = ")?;
        self.app(names, &bind.app)
    }

    /// The members of a let group.
    fn group(&mut self, names: &[Seq<u8>], group: &[Bind]) -> Result<(), AllocError>
        ensures { OnOk result (self.new ≡ self.old
            ++ group_text names.now (codes " ") (map bind_of group.now)) }
    {
        let mut lead: &[u8] = b" ";
        for bind in group {
            self.put(lead)?;
            self.bind(names, bind)?;
            lead = b"; ";
        }
        Ok(())
    }

    fn pattern(&mut self, names: &[Seq<u8>], pattern: &Pattern) -> Result<(), AllocError>
        ensures { OnOk result (self.new ≡ self.old ++ pattern_text names.now pattern.now) }
    {
        match pattern {
            Pattern::Con(constructor, fields) => {
                self.name(names, constructor.name)?;
                self.binders(names, fields.as_slice())
            }
            Pattern::Int(value, _) => self.integer(*value),
            Pattern::Default(name) => self.name(names, name.name),
        }
    }

    #[cycle(print_expr)]
    fn expr(&mut self, names: &[Seq<u8>], expr: &Expr) -> Result<(), AllocError>
        ensures { OnOk result (self.new ≡ self.old ++ expr_text names.now (expr_of expr.now)) }
    {
        match expr {
            Expr::App(app) => self.app(names, app),
            Expr::Let(group, body) => {
                self.put(b"let")?;
                self.group(names, group.as_slice())?;
                self.put(b" in ")?;
                self.expr(names, body)
            }
            Expr::Case(tested, alts) => {
                self.put(b"case ")?;
                self.expr(names, tested)?;
                self.put(b" of")?;
                self.alts(names, alts.as_slice())?;
                self.put(b" }")
            }
        }
    }

    /// The alternatives of a case.
    #[cycle(print_expr)]
    fn alts(&mut self, names: &[Seq<u8>], alts: &[Alt]) -> Result<(), AllocError>
        ensures { OnOk result (self.new ≡ self.old
            ++ alts_text names.now (codes " { ") (alts_of (map alternative alts.now))) }
    {
        let mut lead: &[u8] = b" { ";
        for alt in alts {
            self.put(lead)?;
            self.pattern(names, &alt.pattern)?;
            self.put(b" -> ")?;
            self.expr(names, &alt.body)?;
            lead = b"; ";
        }
        Ok(())
    }

    fn constructor(&mut self, names: &[Seq<u8>], constructor: &Data) -> Result<(), AllocError>
        ensures { OnOk result (self.new ≡ self.old
            ++ data_line names.now (data_of constructor.now)) }
    {
        self.put(b"data ")?;
        self.name(names, constructor.name)?;
        self.put(b" ")?;
        self.count(constructor.fields)?;
        self.put(b";\n")
    }

    fn constructors(&mut self, names: &[Seq<u8>], constructors: &[Data]) -> Result<(), AllocError>
        ensures { OnOk result (self.new ≡ self.old
            ++ flat_map (data_line names.now) (map data_of constructors.now)) }
    {
        for constructor in constructors {
            self.constructor(names, constructor)?;
        }
        Ok(())
    }

    fn function(&mut self, names: &[Seq<u8>], function: &Function) -> Result<(), AllocError>
        ensures { OnOk result (self.new ≡ self.old
            ++ function_line names.now (function_of function.now)) }
    {
        self.name(names, function.name)?;
        self.binders(names, function.params.as_slice())?;
        self.put(b" = ")?;
        self.expr(names, &function.body)?;
        self.put(b";\n")
    }

    fn functions(&mut self, names: &[Seq<u8>], functions: &[Function]) -> Result<(), AllocError>
        ensures { OnOk result (self.new ≡ self.old
            ++ flat_map (function_line names.now) (map function_of functions.now)) }
    {
        for function in functions {
            self.function(names, function)?;
        }
        Ok(())
    }
}
