// Definitions only: kinds, the molecule and the card of document 01 stand under specs/.
#![tactic(auto)]
