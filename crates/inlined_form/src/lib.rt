//! What holds of translated programs whose evaluations and applications are inlined.
#![tactic(auto)]

ghost use Rattle.inlined_form.specs.Laws.{InlinedProgramsAreReady, InlinedSizesFit};

use translated_form::valid_translations_are_formed;

/// A translated program whose evaluations and applications are inlined is well formed and ready for
/// the passes after: they find no evaluation and no application, few parameters, fields and
/// results, no run in which something is missing, and results that are evaluated nodes.
pub fn inlined_programs_are_ready()
    ensures { InlinedProgramsAreReady }
{
    // The law that the translation is formed: so each variable past those that it binds is fresh.
    valid_translations_are_formed();
}

/// The size of a translated program whose evaluations and applications are inlined is a number of
/// 64 bits.
pub fn inlined_sizes_fit()
    ensures { InlinedSizesFit }
{}
