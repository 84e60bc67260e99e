//! The law of packed lists, for the proofs of the crates above. The function does nothing.
ghost use Rattle.replication.specs.Packed.{UnpackingGivesTheList, CommittedIsEnough};

/// A list that is packed and unpacked is the same list if the receiver's own has the left-out
/// beginning. That holds if the receiver reported no more than it has committed, and the list
/// begins with its committed list.
pub fn packed_lists()
    ensures same { UnpackingGivesTheList }
    ensures committed { CommittedIsEnough }
{}
