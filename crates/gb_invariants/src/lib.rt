//! What each single change of the bus part of the machine keeps. The facts stand in specs/, and a
//! lemma for each change and fact in proofs/.
#![tactic(auto)]
