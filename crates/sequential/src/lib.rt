// Demand 3: whatever calls are made on a queue, every port gets the values that one access after another gives it. There is no
// code here. The crate `queue` has the calls with their rules and contracts; specs/ says what whole lists of them do.

#![tactic(auto)]
