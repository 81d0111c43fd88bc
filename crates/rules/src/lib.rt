// Definitions only: the four answers of document 01 stand under specs/.
#![tactic(auto)]
