ghost use Rattle.catalogue.specs.CoreTie.{FollowsCore};

/// What `Catalogue::load` does to the published table is what the core's event does to its own.
pub fn follows_core()
    ensures { FollowsCore }
{}
