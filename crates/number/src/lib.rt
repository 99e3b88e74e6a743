// Numbers: their bytes, read and written; and the refusal numbers of every call. What lies above rests on the contracts, the definitions
// and the laws about them that the proofs publish.

#![tactic(auto)]

pub mod reading;
pub mod refusal;
pub mod texts;
pub mod writing;
