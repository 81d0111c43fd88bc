// Definitions only: the words that the rules of document 01 are said in stand under specs/.
#![tactic(auto)]
