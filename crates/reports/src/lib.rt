#![tactic(auto)]

// The report of a feed, and that reading it in any parts and printing then gives it: statements alone, no functions.
