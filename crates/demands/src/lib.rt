#![tactic(auto)]

// What is claimed: the theorems of the demands. No function.
