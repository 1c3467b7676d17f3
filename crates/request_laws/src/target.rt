// Targets are read by the grammar, and mean the places that it says.
ghost use Rattle.request_laws.specs.TargetLaws.{TargetsRead, TargetsMean, PlacesAgain};

// Nothing is wrong with a target exactly where the grammar has a place that it means.
pub fn targets_read()
    ensures { TargetsRead }
{}

// The canonical form of a target is the target of the place that it means.
pub fn targets_mean()
    ensures { TargetsMean }
{}

// The target of a good place means that place.
pub fn places_again()
    ensures { PlacesAgain }
{}
