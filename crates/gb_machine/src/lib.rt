//! Definitions alone: the machine that the bus is. They stand in specs/.
#![tactic(auto)]
