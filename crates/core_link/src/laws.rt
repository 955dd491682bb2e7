//! What holds of linking by its definitions alone.

ghost use Rattle.core_link.specs.Laws.{ModuleTextHasProgram, SingleModuleKeepsMeaning, TextOrderIsIrrelevant, LinkingKeepsNameRules};

use arity_check::laws::{normal_form_exists, normal_form_is_unique};

/// The order of the texts is of no account.
pub fn text_order_is_irrelevant()
    ensures { TextOrderIsIrrelevant }
{}

/// A linked program breaks no rule of names.
pub fn linking_keeps_name_rules()
    ensures { LinkingKeepsNameRules }
{}

/// Behind the header of each text of a module stands a program, the module's declarations.
pub fn module_text_has_program()
    ensures { ModuleTextHasProgram }
{}

/// One module without imports puts out what its declarations do by themselves.
pub fn single_module_keeps_meaning()
    ensures { SingleModuleKeepsMeaning }
{
    normal_form_is_unique();
    normal_form_exists();
}
