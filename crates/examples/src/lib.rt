// Worked cases, proved by computation: document 01's starred examples (specs/ProvedSet), and other lists of calls (specs/CallCases). There is
// no code here.
#![tactic(auto)]
