#![tactic(auto)]

// Every record of the sheet has room in its fields.
