// Where the words that loads get come from, and S-7's promise: a load waits exactly when it must. There is no code here. The crate
// `queue` has the rule, `sequential` the plain run; specs/ says what is true of both.

#![tactic(auto)]
