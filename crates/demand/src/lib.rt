#![tactic(auto)]

// Demand 3 on the bytes of a buffer: what a player who holds only the sheet plays is what the text says.
