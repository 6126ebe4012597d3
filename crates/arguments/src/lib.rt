#![tactic(auto)]

// What proves the claims. No function.
