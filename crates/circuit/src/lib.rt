// Circuits: what they mean by themselves, when they are refused, and their systems; that a circuit's system has the circuit's own start states, steps
// and bad states. No code.
#![tactic(auto)]
