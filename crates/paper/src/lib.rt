#![tactic(auto)]

// Document 01's worked lines; specs/ has the table and the one fact over it.
