// Definitions only: the text of document 01, its reading and its writing, stands under specs/.
#![tactic(auto)]
