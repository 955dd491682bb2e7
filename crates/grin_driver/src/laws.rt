//! What holds of the images of a text by the commands that wrote it.

ghost use Rattle.grin_driver.specs.TypedRuns.{TypedNeverExits};
ghost use Rattle.grin_driver.specs.WrittenRuns.{LinkedImagesKeepMeaning, LiftedImagesKeepMeaning, MatchedImagesKeepMeaning};

use arity_check::laws::normal_form_exists;
use core_link::laws::single_module_keeps_meaning;
use lambda_lift::laws::lifting_preserves_meaning;
use match_compile::laws::translation_keeps_meaning;
use text_commands::laws::canonical_text_keeps_meaning;

/// No image of a text that `types` wrote ends for want of an alternative.
pub fn typed_never_exits()
    ensures { TypedNeverExits }
{
    canonical_text_keeps_meaning();
}

/// An image of a text that `link` wrote does what the modules do together.
pub fn linked_images_keep_meaning()
    ensures { LinkedImagesKeepMeaning }
{
    canonical_text_keeps_meaning();
    normal_form_exists();
    single_module_keeps_meaning();
}

/// An image of a text that `lift` wrote does what the text with lambdas means.
pub fn lifted_images_keep_meaning()
    ensures { LiftedImagesKeepMeaning }
{
    canonical_text_keeps_meaning();
    normal_form_exists();
    lifting_preserves_meaning();
}

/// An image of a text that `match` wrote does what the equations say.
pub fn matched_images_keep_meaning()
    ensures { MatchedImagesKeepMeaning }
{
    canonical_text_keeps_meaning();
    normal_form_exists();
    translation_keeps_meaning();
}
