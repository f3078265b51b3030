#![tactic(auto)]

// Where everything stands in a burst: the rules of the inserter, the interleaver and the lead, with what each owes as a stage.
// There is no code here: the rules are in specs/, and the laws about them in proofs/.
