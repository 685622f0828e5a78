#![tactic(auto)]

// What the text says of its notes, from document 01's section of that name alone, and the reading held to it.
