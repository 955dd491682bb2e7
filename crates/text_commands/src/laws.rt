// What the definitions of texts and answers say by themselves.

ghost use Rattle.text_commands.specs.Rereading.{CanonicalTextKeepsMeaning};
ghost use Rattle.text_commands.specs.Text.{OneAcceptedProgram};

use arity_check::laws::normal_form_is_unique;
use core_print::laws::canonical_text_is_of_one_program;

/// A text that breaks no rule stands for one program, which has one normal form.
pub fn one_accepted_program()
    ensures { OneAcceptedProgram }
{
    normal_form_is_unique();
}

/// A program that was written as its canonical text does what the one does that is read of it,
/// where `check` accepts that.
pub fn canonical_text_keeps_meaning()
    ensures { CanonicalTextKeepsMeaning }
{
    normal_form_is_unique();
    canonical_text_is_of_one_program();
}
