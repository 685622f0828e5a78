#![tactic(auto)]

// What a line makes of a state stays within the bounds that the code of the reader counts on.
