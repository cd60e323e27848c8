// What holds of rows and series from call to call, proved once for every type of entry.
ghost use Rattle.register.specs.Laws.{LookUpAfterChange, LookUpAfterRemoval, LookUpAfterAddition};
ghost use Rattle.register.specs.Laws.{FreeRowsInOrder, ChangeKeepsOrder, RemovalKeepsOrder, AdditionKeepsOrder, NumberGivenIsNew};
ghost use Rattle.register.specs.Laws.{SumAfterChange, SumAfterRemoval, SumAfterAddition};

// What a look-up answers after a call, under the call's number and under every other.
pub fn look_ups_follow<T: Copy>()
    ensures change { LookUpAfterChange T }
    ensures removal { LookUpAfterRemoval T }
    ensures addition { LookUpAfterAddition T }
{}

// Each new number is above those that stand, and no two entries get one number.
pub fn numbers_stay_in_order<T: Copy>()
    ensures free { FreeRowsInOrder T }
    ensures change { ChangeKeepsOrder T }
    ensures removal { RemovalKeepsOrder T }
    ensures addition { AdditionKeepsOrder T }
    ensures new { NumberGivenIsNew T }
{}

// What a sum over the rows in use comes to after a call.
pub fn sums_follow<T: Copy>()
    ensures change { SumAfterChange T }
    ensures removal { SumAfterRemoval T }
    ensures addition { SumAfterAddition T }
{}
