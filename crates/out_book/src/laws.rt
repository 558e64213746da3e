ghost use Rattle.out_book.specs.CoreTie.{FollowsCore};

/// What `Book::deliver` does to a book is what the core's event of a delivery does to its own.
pub fn follows_core()
    ensures { FollowsCore }
{}
