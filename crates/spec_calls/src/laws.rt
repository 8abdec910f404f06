//! Laws of calls and groups, stated in specs/Laws.antt. Nothing runs.

ghost use Rattle.spec_calls.specs.Laws.{CallsHaveRanks, FaultsAreSettled, GroupCallsAreTails};

/// There is one fault of recursion at most, and none where no function is at fault.
pub fn faults_are_settled()
    ensures { FaultsAreSettled }
{}

/// Calls of other groups go down by a rank.
pub fn calls_have_ranks()
    ensures { CallsHaveRanks }
{}

/// Where no fault stands, calls within a group stand in tail position.
pub fn group_calls_are_tails()
    ensures { GroupCallsAreTails }
{}
