// Laws on the layers, about definitions alone: functions without a body.

ghost use Rattle.grin_compile.specs.Bounds.{ImageIsWithinBounds};
ghost use Rattle.grin_compile.specs.Room.{MoreRoomRunsSame};
ghost use Rattle.grin_compile.specs.Layers.{LayersCompose, LayersBoundSteps, LayersKeepPace, LowCodeIsCarried, MadeFromLayers, SelectionCarriesLowCode, CodeHasStops, CodeTellsCellsBound};
ghost use Rattle.grin_translate.specs.Same.{ValidTranslationPreservesRuns};

use grin_translate::translation_refines;

/// What was selected carries low code that is never missing.
pub fn selection_carries_low_code()
    ensures { SelectionCarriesLowCode }
{}

/// Words that are placed for items that are selected for low code are code for what the low code
/// tells: they carry it, and enter its procedures in order, going forward.
pub fn low_code_is_carried()
    ensures { LowCodeIsCarried }
{}

/// They end with the stops, which tell the last step before them where no alternative was found.
pub fn code_has_stops()
    ensures { CodeHasStops }
{}

/// Where they exit, but not with the heap full, x3 is the address behind all cells of the low code.
pub fn code_tells_cells_bound()
    ensures { CodeTellsCellsBound }
{}

/// Such words are code for each meaning that the low code tells, where its frames are within a bound.
pub fn layers_compose()
    ensures { LayersCompose }
{}

/// The machine does no more steps than there are words before the procedures, in each one that was
/// entered, each time, and behind them.
pub fn layers_bound_steps()
    ensures { LayersBoundSteps }
{}

/// So many steps are enough for what the low code tells with the units that are these entries.
pub fn layers_keep_pace()
    ensures { LayersKeepPace }
{}

/// What the layers below GRIN make of the last slim stage of a program is an image of the program.
pub fn made_from_layers()
    ensures { MadeFromLayers }
{
    translation_refines();
}

/// What an image needs is within the bounds that are known of its program alone.
pub fn image_is_within_bounds()
    ensures { ImageIsWithinBounds }
{}

/// Where an image wasn't full, one of the same low code with more room runs the same.
pub fn more_room_runs_same()
    ensures { MoreRoomRunsSame }
{}
