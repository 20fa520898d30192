//! Definitions alone: how bytes and texts spell things. They stand in specs/.
#![tactic(auto)]
